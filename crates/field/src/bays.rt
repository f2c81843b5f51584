// Bays: whether each bay is a free square of its own.
ghost use Rattle.std.specs.Prelude.{◌≡◌, ℕ, ◌*◌, ◌<◌, length};
ghost use Rattle.rules.specs.Tests.{every_to};
ghost use Rattle.rules.specs.Field.{bay_ok};
ghost use Rattle.rules.specs.Memory.{field_numbers, field_in};

// Whether the bay of shuttle i is a square of the field, no wall, and no bay of a shuttle before it.
fn is_own_bay(walls: &[u8], bays: &[u16], i: usize) -> bool
    requires { i < length bays.now }
    ensures { (across down : ℕ) → length walls.now ≡ across * down
        → result ≡ bay_ok (field_in (field_numbers across down walls.now bays.now)) i }
{
    let square = bays[i] as usize;
    square < walls.len() && walls[square] != 1 && !bays[..i].contains(&bays[i])
}

// Whether each bay is a free square of its own.
pub fn are_bays(walls: &[u8], bays: &[u16]) -> bool
    ensures { (across down : ℕ) → length walls.now ≡ across * down
        → result ≡ every_to (bay_ok (field_in (field_numbers across down walls.now bays.now))) (length bays.now) }
{
    (0..bays.len()).all(|i| is_own_bay(walls, bays, i))
}
