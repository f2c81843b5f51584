// A field is read from rows of signs.
ghost use Rattle.std.specs.Prelude.{◌≡◌, ◌≤◌, [], ◌++◌, map, length, IfOk, None, MatchResult};
ghost use Rattle.rules.specs.Tests.{every};
ghost use Rattle.text.specs.Lines.{pieces};
ghost use Rattle.text.specs.Fields.{row_count, signs, is_letter, is_sign, sign_fits, signs_fit, row_fits, misfit, is_led, gap, fault};
ghost use Rattle.text.specs.Fields.{across_of, wall_mark, bays_from, Tells};
ghost use Rattle.text.specs.Shown.{Shows};
ghost use Rattle.text.specs.Failures.{UnlessMemory};

use super::failure::Failure;
use super::field_text::FieldText;
use field::Refusal;
use std::alloc::{AllocError, Global};

// How many lines stand before the first empty one: the rows of a field.
pub fn rows_in(lines: &[&[u8]]) -> usize
    ensures value { result ≡ row_count (pieces lines.now) }
    ensures bound { result ≤ length lines.now }
{
    lines
        .iter()
        .position(|line| line.is_empty())
        .unwrap_or(lines.len())
}

// Whether it is the letter of a shuttle's bay: a to p.
pub fn is_bay_letter(sign: u8) -> bool
    ensures { result ≡ is_letter sign }
{
    matches!(sign, b'a'..=b'p')
}

fn is_field_sign(sign: u8) -> bool
    ensures { result ≡ is_sign sign }
{
    matches!(sign, b'.' | b'#') || is_bay_letter(sign)
}

// Whether it is a sign of a field, and no letter that stood before it, in the rows before or in its own. Only a letter is looked
// for among those before it, so that the time to read a field grows with its signs and not with their square.
fn sign_follows(before: &[u8], row: &[u8], sign: u8) -> bool
    ensures { result ≡ sign_fits (before.now ++ row.now) sign }
{
    if is_bay_letter(sign) {
        !before.contains(&sign) && !row.contains(&sign)
    } else {
        is_field_sign(sign)
    }
}

// Whether each sign of a row follows those before it.
fn signs_follow(before: &[u8], row: &[u8]) -> bool
    ensures { result ≡ signs_fit before.now row.now }
{
    row.iter()
        .enumerate()
        .all(|(i, sign)| sign_follows(before, &row[..i], *sign))
}

// Whether a row is as long as the first, and its signs follow those before it.
#[tactic(auto, using(std::proofs::lemmas::Bool::Decides::nat_tests), unfolding(crate::specs::Fields::row_fits))]
fn row_follows(before: &[u8], row: &[u8], across: usize) -> bool
    ensures { result ≡ row_fits across before.now row.now }
{
    row.len() == across && signs_follow(before, row)
}

// The signs of all rows, if each row is as long as the first and its signs follow those before it. A loop, since each row is
// tested against those before it.
fn signs_of(heap: Global, rows: &[&[u8]], across: usize) -> Result<Vec<u8>, Failure>
    ensures { let wrong = misfit across 0 [] (pieces rows.now) in
        let all = signs (pieces rows.now) in
        UnlessMemory result (λ r. MatchResult r (λ v. (wrong ≡ None) × (v.items ≡ all)) (Tells wrong)) }
{
    let mut signs = Vec::new(heap);
    for (i, row) in rows.iter().enumerate() {
        if !row_follows(signs.as_slice(), row, across) {
            return Err(Refusal::Text(i as u64).into());
        }
        signs.extend_from_slice(row)?;
    }
    Ok(signs)
}

// Whether a sign is no letter, or a, or its forerunner stands somewhere among all signs.
fn leads(all: &[u8], sign: u8) -> bool
    ensures { result ≡ is_led all.now sign }
{
    !is_bay_letter(sign) || sign == b'a' || all.contains(&(sign - 1))
}

// Whether each letter of a row other than a has its forerunner among all signs.
fn letters_lead(all: &[u8], row: &[u8]) -> bool
    ensures { result ≡ every (is_led all.now) row.now }
{
    row.iter().all(|sign| leads(all, *sign))
}

// The first row with a letter whose forerunner is missing.
fn first_gap(all: &[u8], rows: &[&[u8]]) -> Option<usize>
    ensures { result ≡ gap 0 all.now (pieces rows.now) }
{
    rows.iter().position(|row| !letters_lead(all, row))
}

// A mark for each sign: 1 for a wall.
fn walls_of(heap: Global, all: &[u8]) -> Result<Vec<u8>, AllocError>
    ensures { IfOk result (λ v. v.items ≡ map wall_mark all.now) }
{
    all.iter().map(|sign| u8::from(*sign == b'#')).collect(heap)
}

// The square of each letter from a on, as far as they stand there. A loop, since the first letter that is missing ends it and
// each square takes memory, which can fail.
fn bays_of(heap: Global, all: &[u8]) -> Result<Vec<u16>, AllocError>
    ensures { IfOk result (λ v. v.items ≡ bays_from 16 97 all.now) }
{
    let mut bays = Vec::new(heap);
    for letter in b'a'..=b'p' {
        let Some(square) = all.iter().position(|sign| *sign == letter) else {
            break;
        };
        bays.push(u16::try_from(square).unwrap_or(u16::MAX))?;
    }
    Ok(bays)
}

// How long the first row is; 0 where there is none.
fn across_in(rows: &[&[u8]]) -> usize
    ensures { result ≡ across_of (pieces rows.now) }
{
    match rows {
        [first, ..] => first.len(),
        [] => 0,
    }
}

// The field that the rows show, or the first row at fault.
pub fn read_field(heap: Global, rows: &[&[u8]]) -> Result<FieldText, Failure>
    ensures { let lines = pieces rows.now in
        UnlessMemory result (λ r. MatchResult r (Shows lines) (Tells (fault lines))) }
{
    let across = across_in(rows);
    let signs = signs_of(heap, rows, across)?;
    if let Some(row) = first_gap(signs.as_slice(), rows) {
        return Err(Refusal::Text(row as u64).into());
    }
    let walls = walls_of(heap, signs.as_slice())?;
    let bays = bays_of(heap, signs.as_slice())?;
    Ok(FieldText {
        across: across as u64,
        down: rows.len() as u64,
        walls,
        bays,
    })
}
