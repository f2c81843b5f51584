// What is proved of ticks. Each function says one statement in its contract, so that the check asks for its proof; it
// computes nothing.
#![tactic(auto)]

ghost use Rattle.turns.specs.Rows.{TicksAreRows, DueCome, WaitsCount, LongestFirst};
ghost use Rattle.turns.specs.Bound.{AllDoneInTime};
ghost use Rattle.turns.specs.Home.{HomeInTime, HomeByTicks};
ghost use Rattle.turns.specs.Night.{NightsAreRows};
ghost use Rattle.turns.specs.Starving.{Starves};
ghost use Rattle.turns.specs.Parts.{PartsAreFound, AtMostTwoIsFound};
ghost use Rattle.turns.specs.Examples.{BothKinds};
ghost use Rattle.turns.specs.Waiting.{NobodyStarves, EachComesHome};

// A tick is a row of the arrivals that are due and then at most one step, each of which happens.
pub fn ticks_are_rows_stands() -> u8
    ensures { TicksAreRows }
{
    0
}

// Each arrival that is due is made, and nothing else.
pub fn due_come_stands() -> u8
    ensures { DueCome }
{
    0
}

// Who stands with something left has waited one more, and every other has not waited.
pub fn waits_count_stands() -> u8
    ensures { WaitsCount }
{
    0
}

// Of those whose steps are granted the one that has waited longest is chosen, of equals the lowest.
pub fn longest_first_stands() -> u8
    ensures { LongestFirst }
{
    0
}

// Where arrivals come within d ticks and nothing is stuck, all is done after (left + 1) · max(d, 1) ticks.
pub fn all_done_in_time_stands() -> u8
    ensures { AllDoneInTime }
{
    0
}

// By ticks alone, whichever granted steps are chosen, all are home after (squares left + 1) · max(d, 1)
// ticks.
pub fn home_in_time_stands() -> u8
    ensures { HomeInTime }
{
    0
}

// And so where the one that has waited longest is chosen.
pub fn home_by_ticks_stands() -> u8
    ensures { HomeByTicks }
{
    0
}

// With orders before the ticks, each fleet is still one after a row of events.
pub fn nights_are_rows_stands() -> u8
    ensures { NightsAreRows }
{
    0
}

// Where others are ordered again and again, one may wait for ever: in a hall of six squares the same fleets come again
// every eight ticks, and one shuttle never gets a step.
pub fn starves_stands() -> u8
    ensures { Starves }
{
    0
}

// The connected parts of a field are found by joining numbers of squares.
pub fn parts_are_found_stands() -> u8
    ensures { PartsAreFound }
{
    0
}

// And so whether each part touches at most two bays.
pub fn at_most_two_is_found_stands() -> u8
    ensures { AtMostTwoIsFound }
{
    0
}

// There are fields of that kind, and the one in which somebody starves is none.
pub fn both_kinds_stands() -> u8
    ensures { BothKinds }
{
    0
}

// Where no part of the field touches three bays, whoever waits gets its step within a number of ticks, whatever is
// ordered of the others.
pub fn nobody_starves_stands() -> u8
    ensures { NobodyStarves }
{
    0
}

// And there each comes home.
pub fn each_comes_home_stands() -> u8
    ensures { EachComesHome }
{
    0
}
