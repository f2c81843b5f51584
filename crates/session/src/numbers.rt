// Numbers, squares and counts of ticks, as words.
ghost use Rattle.std.specs.Prelude.{◌≡◌, ◌==◌, position};
ghost use Rattle.session.specs.Numbers.{number_in, place_in, ticks_in};

// A square by its column and row, both from 0.
#[derive(Clone, Copy, PartialEq, Eq, Debug)]
pub struct Place {
    pub column: u64,
    pub row: u64,
}

// So many ticks, each arrival due so many ticks after its step.
#[derive(Clone, Copy, PartialEq, Eq, Debug)]
pub struct Ticks {
    pub count: u64,
    pub due: u64,
}

// The number that digits stand for. A larger one than 65,535 is told as that: it is past every field and every range
// all the same. By hand, since the library's reading takes a plus sign and turns away what its type can't hold.
#[tactic(auto, using(crate::proofs::Digits::digit_more, crate::proofs::Digits::digit_none, crate::proofs::Digits::digits_over), unfolding(crate::specs::Numbers::number_in))]
fn read_number(word: &[u8]) -> Option<u64>
    ensures { result ≡ number_in word.now }
{
    if word.is_empty() {
        return None;
    }
    let mut number: u64 = 0;
    for digit in word {
        if !digit.is_ascii_digit() {
            return None;
        }
        number = (10 * number + u64::from(digit - b'0')).min(65535);
    }
    Some(number)
}

// Where the first comma stands.
fn comma_in(word: &[u8]) -> Option<usize>
    ensures { result ≡ position (λ sign. sign == 44) word.now }
{
    word.iter().position(|sign| *sign == b',')
}

// A square, as column and row with a comma between.
pub fn read_place(word: &[u8]) -> Option<Place>
    ensures { result ≡ place_in word.now }
{
    let comma = comma_in(word)?;
    let column = read_number(&word[..comma])?;
    let row = read_number(&word[comma + 1..])?;
    Some(Place { column, row })
}

// A number of ticks, and after how many of them an arrival is due, both in range.
pub fn read_ticks(count: &[u8], due: &[u8]) -> Option<Ticks>
    ensures { result ≡ ticks_in count.now due.now }
{
    let count = read_number(count).filter(|count| (1..=10000).contains(count))?;
    let due = read_number(due).filter(|due| (1..=1000).contains(due))?;
    Some(Ticks { count, due })
}
