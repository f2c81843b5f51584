// A line of a route is judged.
ghost use Rattle.std.specs.Prelude.{◌≡◌};
ghost use Rattle.field.specs.Model.{field_of};
ghost use Rattle.text.specs.Failures.{UnlessMemory};
ghost use Rattle.text.specs.Judged.{judged_ways, judged_line};
ghost use Rattle.text.specs.Routes.{ways_in};

use super::answers::Judgement;
use super::failure::Failure;
use super::fields::is_bay_letter;
use super::ways::{read_ways, squares_on};
use field::{Field, Refusal};
use route::judge;
use std::alloc::Global;

// What the letters are judged to be, as a route of the shuttle from its bay; `place` is the number of their line.
#[tactic(auto, using(std::proofs::lemmas::Bool::Decides::nat_tests), unfolding(crate::specs::Judged::judged_ways, rules::specs::Memory::field_in))]
fn judge_letters(
    heap: Global,
    field: &Field,
    place: u64,
    shuttle: usize,
    letters: &[u8],
) -> Result<Judgement, Failure>
    ensures { let judged = judged_ways (field_of field.now) place shuttle (ways_in letters.now) in
        UnlessMemory result (λ j. j ≡ judged) }
{
    let ways = read_ways(heap, letters)?.ok_or(Refusal::Text(place))?;
    if shuttle >= field.bays.len() || ways.len() > 256 {
        return Err(Refusal::Event.into());
    }
    let bay = field.bays[shuttle];
    let squares = squares_on(heap, field, bay, ways.as_slice())?;
    Ok(Judgement(judge(field, shuttle, bay, squares.as_slice())))
}

// What the k-th line of the rest, which is the line at `place` of the whole text, is judged to be. The letter of a shuttle and
// exactly one blank before the route say whose it is.
pub fn judge_line(
    heap: Global,
    field: &Field,
    place: u64,
    k: usize,
    line: &[u8],
) -> Result<Judgement, Failure>
    ensures { UnlessMemory result (λ j. j ≡ judged_line (field_of field.now) place k line.now) }
{
    match line {
        [letter, b' ', letters @ ..] if is_bay_letter(*letter) => {
            judge_letters(heap, field, place, usize::from(letter - b'a'), letters)
        }
        _ => judge_letters(heap, field, place, k, line),
    }
}
