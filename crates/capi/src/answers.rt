// The number of an answer.
ghost use Rattle.std.specs.Prelude.{◌≡◌, ◌<◌, ◌^◌};
ghost use Rattle.capi.specs.Numbers.{number};

use field::Refusal;

// The low 8 bits of an answer, as the C header names them.
pub const HAPPENED: u64 = 0;

pub const NOT: u64 = 1;

pub const FOUND: u64 = 2;

// This kind in the low 8 bits with what there is above it, or NOT if there is nothing, or 16 + n if the call was
// turned away by n. A function, since `From` is not allowed between types of other crates.
pub fn number_of(answer: Result<Option<usize>, Refusal>, kind: u64) -> u64
    requires { number kind answer < 2 ^ 64 }
    ensures { result ≡ number kind answer }
{
    match answer {
        Ok(Some(k)) => 256 * k as u64 + kind,
        Ok(None) => NOT,
        Err(refusal) => refusal.code(),
    }
}
