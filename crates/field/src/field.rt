// A field that is accepted: its size, a mark for each square, row by row, and a bay for each shuttle.
ghost use Rattle.std.specs.Prelude.{◌≡◌, true};
ghost use Rattle.rules.specs.Memory.{field_numbers, field_ok};

#[derive(Clone, Copy)]
pub struct Field<'a, 'b> {
    pub across: u64,
    pub down: u64,
    pub walls: &'a [u8],
    pub bays: &'b [u16],
    ghost accepted: { field_ok (field_numbers across down walls.now bays.now) ≡ true },
}
