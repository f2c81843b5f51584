// Instances of the theorems: what they say of the worked examples, and memory in which their hypotheses hold, so that none of
// them is empty. Each function says one of them in its contract, so that the check asks for its proof; it computes nothing.
#![tactic(auto)]

ghost use Rattle.instances.specs.Never.{NoOrderExists, BlockedPairNeverComesAbout, NoRouteOverOtherBays};
ghost use Rattle.instances.specs.Reach.{RowIsAccepted, BusyIsReached};
ghost use Rattle.instances.specs.Rows.{Hypotheses};

// A small field is accepted.
pub fn row_is_accepted() -> u8
    ensures { RowIsAccepted }
{
    0
}

// Memory is reached in which a shuttle moves, has squares left, and another's step is not granted.
pub fn busy_is_reached() -> u8
    ensures { BusyIsReached }
{
    0
}

// Neither the blocked pair nor the ring can be put in an order.
pub fn no_order_exists() -> u8
    ensures { NoOrderExists }
{
    0
}

// No row of events leads to the blocked pair.
pub fn blocked_pair_never_comes_about() -> u8
    ensures { BlockedPairNeverComesAbout }
{
    0
}

// A shuttle in its bay blocks nobody.
pub fn no_route_over_other_bays() -> u8
    ensures { NoRouteOverOtherBays }
{
    0
}

// What the promises suppose of a row of events holds after some row.
pub fn hypotheses_hold() -> u8
    ensures { Hypotheses }
{
    0
}
