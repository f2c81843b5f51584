// A line of commands is read.
ghost use Rattle.std.specs.Prelude.{◌≡◌, ℕ, [], ◌∷◌, IfOk, vec_items};
ghost use Rattle.std.specs.Option.{option_map};
ghost use Rattle.text.specs.Lines.{words, pieces};
ghost use Rattle.text.specs.Gathered.{gathered};
ghost use Rattle.text.specs.Routes.{ways_in};
ghost use Rattle.session.specs.Numbers.{place_in};
ghost use Rattle.text.specs.Failures.{UnlessMemory};
ghost use Rattle.session.specs.Commands.{Ask, order, meaning, shuttle_of, asked_with};
ghost use Rattle.session.specs.Commands.{order_of, event_of, way_of, tick_of, show_of, asked, Says};

use super::numbers::{Place, Ticks, read_place, read_ticks};
use field::{Direction, Refusal};
use std::alloc::{AllocError, Global};
use text::{Failure, gather, is_bay_letter, read_ways, words_of};

// What is asked for: an event of a shuttle, its way through squares, ticks, or the picture of the hall.
#[derive(Drop)]
pub enum Command {
    Order(u64, Vec<Direction>),
    Step(u64),
    Arrive(u64),
    Way(u64, Vec<Place>),
    Tick(Ticks),
    Show,
}

// A shuttle, as exactly one letter. Texts make a shuttle of a letter too: a function for one subtraction is no plainer.
fn read_shuttle(word: &[u8]) -> Option<u64>
    ensures { result ≡ shuttle_of word.now }
{
    match word {
        [letter] if is_bay_letter(*letter) => Some(u64::from(letter - b'a')),
        _ => None,
    }
}

// An order, if its shuttle and its letters can be read.
fn read_route(heap: Global, shuttle: &[u8], letters: &[u8]) -> Result<Option<Command>, AllocError>
    ensures { let wanted = asked_with order (shuttle_of shuttle.now) (ways_in letters.now) in
        IfOk result (λ o. option_map meaning o ≡ wanted) }
{
    let Some(i) = read_shuttle(shuttle) else {
        return Ok(None);
    };
    Ok(read_ways(heap, letters)?.map(|ways| Command::Order(i, ways)))
}

// The words behind 'order': a shuttle, and the letters of its route if it has any.
#[tactic(auto, unfolding(crate::specs::Commands::order_of, text::specs::Gathered::gathered))]
fn read_order(heap: Global, words: &[&[u8]]) -> Result<Option<Command>, AllocError>
    ensures { IfOk result (λ o. option_map meaning o ≡ order_of (pieces words.now)) }
{
    match words {
        [shuttle] => read_route(heap, shuttle, b""),
        [shuttle, letters] => read_route(heap, shuttle, letters),
        _ => Ok(None),
    }
}

// The word behind 'step' or 'arrive': a shuttle.
#[tactic(auto, unfolding(crate::specs::Commands::event_of))]
fn read_event(words: &[&[u8]]) -> Option<u64>
    ensures { (ask : ℕ → Ask) → option_map ask result ≡ event_of ask (pieces words.now) }
{
    match words {
        [shuttle] => read_shuttle(shuttle),
        _ => None,
    }
}

// The squares that words stand for.
fn read_places(heap: Global, words: &[&[u8]]) -> Result<Option<Vec<Place>>, AllocError>
    ensures { IfOk result (λ o. option_map vec_items o ≡ gathered place_in [] (pieces words.now)) }
{
    gather(heap, words, |word| read_place(word))
}

// The words behind 'way': a shuttle and squares.
#[tactic(auto, unfolding(crate::specs::Commands::way_of))]
fn read_way(heap: Global, words: &[&[u8]]) -> Result<Option<Command>, AllocError>
    ensures { IfOk result (λ o. option_map meaning o ≡ way_of (pieces words.now)) }
{
    let [shuttle, squares @ ..] = words else {
        return Ok(None);
    };
    let Some(i) = read_shuttle(shuttle) else {
        return Ok(None);
    };
    Ok(read_places(heap, squares)?.map(|places| Command::Way(i, places)))
}

// The words behind 'tick': a number, the letter d, a number.
#[tactic(auto, unfolding(crate::specs::Commands::tick_of))]
fn read_tick(words: &[&[u8]]) -> Option<Command>
    ensures { option_map meaning result ≡ tick_of (pieces words.now) }
{
    match words {
        [count, b"d", due] => read_ticks(count, due).map(Command::Tick),
        _ => None,
    }
}

// The words behind 'show': there are none.
#[tactic(auto, unfolding(crate::specs::Commands::show_of))]
fn read_show(words: &[&[u8]]) -> Option<Command>
    ensures { option_map meaning result ≡ show_of (pieces words.now) }
{
    words.is_empty().then_some(Command::Show)
}

// What is asked for by a word and those behind it, if they can be read.
fn command_of(heap: Global, word: &[u8], words: &[&[u8]]) -> Result<Option<Command>, AllocError>
    ensures { IfOk result (λ o. option_map meaning o ≡ asked (word.now ∷ pieces words.now)) }
{
    match word {
        b"order" => read_order(heap, words),
        b"step" => Ok(read_event(words).map(Command::Step)),
        b"arrive" => Ok(read_event(words).map(Command::Arrive)),
        b"way" => read_way(heap, words),
        b"tick" => Ok(read_tick(words)),
        b"show" => Ok(read_show(words)),
        _ => Ok(None),
    }
}

// What the line at `place` asks for; nothing if it has no word.
pub fn read_command(heap: Global, place: u64, line: &[u8]) -> Result<Option<Command>, Failure>
    ensures { UnlessMemory result (Says place (words line.now)) }
{
    let words = words_of(heap, line)?;
    let [word, rest @ ..] = words.as_slice() else {
        return Ok(None);
    };
    let command = command_of(heap, word, rest)?;
    Ok(Some(command.ok_or(Refusal::Text(place))?))
}
