// Shortest ways as definitions, in specs/, and what is proved of them, in proofs/; the crate `way` finds what these say.
// Each function here says a law in its contract, so that the check asks for its proof; it computes nothing.
#![tactic(auto)]

ghost use Rattle.ways.specs.Law.{OneWay, OnlyOne};

// Of two routes that differ at most one comes before the other.
pub fn one_way_stands() -> u8
    ensures { OneWay }
{
    0
}

// Only one route is the first of the shortest.
pub fn only_one_stands() -> u8
    ensures { OnlyOne }
{
    0
}
