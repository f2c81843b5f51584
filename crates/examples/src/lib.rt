// Worked examples of the rules, computed from the rules alone: whatever becomes of the theorems, these show what the rules
// say. Each function says one of them in its contract, so that the check asks for its proof; it computes nothing.
#![tactic(auto)]

ghost use Rattle.examples.specs.Steps.{HallIsSound, EitherMayStep, OneMayStep, BlockedPairIsNotSafe};
ghost use Rattle.examples.specs.Steps.{EachEventHappens, MovingHoldsBoth, WhenTheOtherMayStep};
ghost use Rattle.examples.specs.Routes.{SomeRoutes};
ghost use Rattle.examples.specs.Orders.{TakenOnlyWhenIdle, LongestRoute, OrderStands};
ghost use Rattle.examples.specs.Numbers.{SomeFields, SomeMemory, SomeRefusals};
ghost use Rattle.examples.specs.Wrong.{OnePassFails, RingIsNotSafe, TakenWhileAnotherMoves, NoSecondStep};

// Two shuttles that stand in their bays with a route each: either may step.
pub fn either_may_step() -> u8
    ensures sound { HallIsSound }
    ensures granted { EitherMayStep }
{
    0
}

// Once one of them is out, the other has to wait.
pub fn one_may_step() -> u8
    ensures { OneMayStep }
{
    0
}

// Two shuttles of which each stands on the other's next square are not safe.
pub fn blocked_pair_is_not_safe() -> u8
    ensures { BlockedPairIsNotSafe }
{
    0
}

// A shuttle is driven out and back while the other waits: what it holds, and when the other may step.
pub fn when_the_other_may_step() -> u8
    ensures driven { EachEventHappens }
    ensures held { MovingHoldsBoth }
    ensures waited { WhenTheOtherMayStep }
{
    0
}

// What is a route, and what isn't.
pub fn some_routes() -> u8
    ensures { SomeRoutes }
{
    0
}

// To try each shuttle once, in their order, is not enough.
pub fn one_pass_fails() -> u8
    ensures { OnePassFails }
{
    0
}

// A ring of six is not safe, and is not closed.
pub fn ring_is_not_safe() -> u8
    ensures { RingIsNotSafe }
{
    0
}

// An order is taken while another shuttle is on its way.
pub fn taken_while_another_moves() -> u8
    ensures { TakenWhileAnotherMoves }
{
    0
}

// A shuttle that is on its way is granted no second step.
pub fn no_second_step() -> u8
    ensures { NoSecondStep }
{
    0
}

// An order is taken only by a shuttle that stands with nothing left.
pub fn taken_only_when_idle() -> u8
    ensures { TakenOnlyWhenIdle }
{
    0
}

// A route of 256 squares is taken, and no longer one; the shuttle stands then.
pub fn longest_route() -> u8
    ensures longest { LongestRoute }
    ensures stands { OrderStands }
{
    0
}

// What is a field in numbers, and what isn't.
pub fn some_fields() -> u8
    ensures { SomeFields }
{
    0
}

// What is memory, and how it is read and written.
pub fn some_memory() -> u8
    ensures { SomeMemory }
{
    0
}

// What is an event in numbers, and which refusal comes first.
pub fn some_refusals() -> u8
    ensures { SomeRefusals }
{
    0
}
