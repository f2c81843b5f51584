// The theory of agents that block each other. Each function says a theorem in its contract, so that the check asks for
// its proof; it computes nothing.
#![tactic(auto)]

ghost use Rattle.agents.specs.Statements.{TakingOutIsRight, AnyOrderIsRight, AnyOrderTries, OrdersAreFound, FewerBlocksKeepOrders, SomeOneIsFree, GoesOrWaits};
ghost use Rattle.agents.specs.Statements.{MayIsGranted, GrantsKeepSafety, SomeGoes};

// Taking out, again and again, finds exactly those who can go.
pub fn taking_out_is_right() -> u8
    ensures { TakingOutIsRight }
{
    0
}

// Taking out in any order finds the same.
pub fn any_order_is_right() -> u8
    ensures { AnyOrderIsRight }
{
    0
}

// So, with nobody closed, does trying.
pub fn any_order_tries() -> u8
    ensures { AnyOrderTries }
{
    0
}

// An order exists exactly if trying leaves nobody, and exactly if everybody can go.
pub fn orders_are_found() -> u8
    ensures { OrdersAreFound }
{
    0
}

// An order is still one with fewer blocks.
pub fn fewer_blocks_keep_orders() -> u8
    ensures { FewerBlocksKeepOrders }
{
    0
}

// Never stuck: somebody that is not done is blocked by nobody.
pub fn some_one_is_free() -> u8
    ensures { SomeOneIsFree }
{
    0
}

// Each can go or waits for a closed one, and never both.
pub fn goes_or_waits() -> u8
    ensures { GoesOrWaits }
{
    0
}

// What the grant rule tries is the rule.
pub fn may_is_granted<S>() -> u8
    ensures { MayIsGranted S }
{
    0
}

// A granted change keeps safety.
pub fn grants_keep_safety<S>() -> u8
    ensures { GrantsKeepSafety S }
{
    0
}

// Somebody is granted what it needs.
pub fn some_goes<S>() -> u8
    ensures { SomeGoes S }
{
    0
}
