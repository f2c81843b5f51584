// The promises over memory and calls. Each function says one of them in its contract, so that the check asks for its
// proof; it computes nothing.
#![tactic(auto)]

ghost use Rattle.calls.specs.Call.{StoredIsRead, StaysAccepted, Follows, RowIsPlayed, KeepsPromises, StepLeavesLess, EventLeavesLess};

// Writing one shuttle into memory changes that shuttle and nothing else.
pub fn stored_is_read_stands() -> u8
    ensures { StoredIsRead }
{
    0
}

// What a call leaves is accepted again, and is what the event makes of the hall.
pub fn stays_accepted_stands() -> u8
    ensures { StaysAccepted }
{
    0
}

// Memory is what the row of events makes of the hall.
pub fn follows_stands() -> u8
    ensures { Follows }
{
    0
}

// Each row of accepted events is that of some calls.
pub fn row_is_played_stands() -> u8
    ensures { RowIsPlayed }
{
    0
}

// Memory that calls have led to keeps every promise.
pub fn keeps_promises_stands() -> u8
    ensures { KeepsPromises }
{
    0
}

// A call that grants a step leaves exactly one square less to go.
pub fn step_leaves_less_stands() -> u8
    ensures { StepLeavesLess }
{
    0
}

// A call of a step or an arrival that happens leaves exactly one event less.
pub fn event_leaves_less_stands() -> u8
    ensures { EventLeavesLess }
{
    0
}
