// What is turned away: its number on standard output, and what is wrong in words on standard error.
ghost use Rattle.std.specs.Prelude.{◌≡◌, Ok, Err, IfOk, MatchOption};
ghost use Rattle.field.specs.declared.refusal.Refusal.{Refusal};
ghost use Rattle.text.specs.declared.failure.Failure.TheVariants.{Refused};

use field::Refusal;
use std::fmt::Display;
use text::Failure;

// Prints why something was turned away, and says it in words.
pub fn turn_away(rt: &HostRuntime, refusal: Refusal) -> anyhow::Result<()> {
    rt.println(refusal)?;
    rt.eprintln(Failure::Refused(refusal))?;
    Ok(())
}

// What was answered; nothing where it was turned away, which is told.
pub fn answered<T>(rt: &HostRuntime, answer: Result<T, Failure>) -> anyhow::Result<Option<T>>
    ensures { IfOk result (λ o. MatchOption o ((why : Refusal) × (answer ≡ Err (Refused why))) (λ x. answer ≡ Ok x)) }
{
    match answer {
        Ok(answer) => Ok(Some(answer)),
        Err(Failure::Refused(refusal)) => {
            turn_away(rt, refusal)?;
            Ok(None)
        }
        Err(failure) => Err(failure.into()),
    }
}

// Prints what was answered, or why it was turned away.
pub fn tell<T: Display + Drop>(rt: &HostRuntime, answer: Result<T, Failure>) -> anyhow::Result<()> {
    if let Some(answer) = answered(rt, answer)? {
        rt.println(answer)?;
    }
    Ok(())
}
