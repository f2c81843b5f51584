// Tests of each number of a slice by the largest one: the fold has no way out, and so it runs over many numbers at once.
// They stay one for each type and bound: one generic test would take an order of the type, and say less in its contract.
ghost use Rattle.std.specs.Prelude.{◌≡◌, ◌≤◌, nat_le, nat_lt};
ghost use Rattle.rules.specs.Tests.{every};

// Whether each mark is 0 or 1.
pub fn are_marks(walls: &[u8]) -> bool
    ensures { result ≡ every (λ w. nat_le w 1) walls.now }
{
    walls.iter().fold(0, |most: u8, mark| most.max(*mark)) <= 1
}

// Whether each of these squares is one of so many.
pub fn are_squares(part: &[u16], squares: usize) -> bool
    requires { 1 ≤ squares }
    ensures { result ≡ every (λ c. nat_lt c squares) part.now }
{
    (part.iter().fold(0, |most: u16, square| most.max(*square)) as usize) < squares
}
