// The promises over every row of events. Each function says one of them in its contract, so that the check asks for its
// proof; it computes nothing.
#![tactic(auto)]

ghost use Rattle.promise.specs.Promise.{Apart, NeverStuck, WayHome, LessLeft, WorkFalls, EndsHome, AlwaysTaken};
ghost use Rattle.promise.specs.Rule.{RuleIsTheSame};
ghost use Rattle.promise.specs.Promise.{AlwaysSafe, TryingIsRight, AlwaysPlaced, RefusedWhen};

// No two shuttles ever hold a square together.
pub fn apart_stands() -> u8
    ensures { Apart }
{
    0
}

// As long as any shuttle has something left, one is on its way or a step is granted.
pub fn never_stuck_stands() -> u8
    ensures { NeverStuck }
{
    0
}

// There is a row of steps and arrivals after which all are home.
pub fn way_home_stands() -> u8
    ensures { WayHome }
{
    0
}

// A granted step leaves exactly one square less to go.
pub fn less_left_stands() -> u8
    ensures { LessLeft }
{
    0
}

// Each step and each arrival that is made leaves exactly one event less.
pub fn work_falls_stands() -> u8
    ensures { WorkFalls }
{
    0
}

// Where no step and no arrival can be made, all are home.
pub fn ends_home_stands() -> u8
    ensures { EndsHome }
{
    0
}

// An order with a route from its bay is always taken by a shuttle that stands with nothing left.
pub fn always_taken_stands() -> u8
    ensures { AlwaysTaken }
{
    0
}

// All is always safe.
pub fn always_safe_stands() -> u8
    ensures { AlwaysSafe }
{
    0
}

// Taking out, again and again, succeeds exactly if an order exists.
pub fn trying_is_right_stands() -> u8
    ensures { TryingIsRight }
{
    0
}

// Each shuttle is where it may be.
pub fn always_placed_stands() -> u8
    ensures { AlwaysPlaced }
{
    0
}

// A step is refused for no other reason than the four.
pub fn refused_when_stands() -> u8
    ensures { RefusedWhen }
{
    0
}

// The hall's rule for a step is the one grant rule for agents that block each other, for every fleet.
pub fn rule_is_the_same_stands() -> u8
    ensures { RuleIsTheSame }
{
    0
}
