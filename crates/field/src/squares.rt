// A field that is lent is accepted or not; its squares, rows and columns.
ghost use Rattle.std.specs.Prelude.{◌≡◌, false, MatchResult, ◌/◌, ◌%◌};
ghost use Rattle.rules.specs.Field.{free_square, beside, is_bay};
ghost use Rattle.rules.specs.Memory.{field_numbers, field_ok};
ghost use Rattle.field.specs.Model.{numbers_in, field_of};
ghost use Rattle.field.specs.Directions.{next, direction_to, LeadsBeside};

use super::bays::are_bays;
use super::direction::Direction;
use super::field::Field;
use super::largest::are_marks;
use super::refusal::Refusal;

// Whether these numbers are a field: its size, a mark for each square, bays that are free squares of their own.
pub fn is_field(across: u64, down: u64, walls: &[u8], bays: &[u16]) -> bool
    ensures { result ≡ field_ok (field_numbers across down walls.now bays.now) }
{
    if across == 0 || across > 64 || down == 0 || down > 64 {
        return false;
    }
    if walls.len() as u64 != across * down || bays.len() > 16 {
        return false;
    }
    are_marks(walls) && are_bays(walls, bays)
}

impl<'a, 'b> Field<'a, 'b> {
    // The field of these numbers, or why a call with them is turned away. They come one by one, as C lends them.
    pub fn accept(
        across: u64,
        down: u64,
        walls: &'a [u8],
        bays: &'b [u16],
    ) -> Result<Field<'a, 'b>, Refusal>
        ensures { let lent = field_numbers across down walls.now bays.now in
            MatchResult result (λ f. numbers_in f ≡ lent) (λ e. (e ≡ Refusal.Field) × (field_ok lent ≡ false)) }
    {
        if is_field(across, down, walls, bays) {
            Ok(Field {
                across,
                down,
                walls,
                bays,
            })
        } else {
            Err(Refusal::Field)
        }
    }
}

impl Field<'_, '_> {
    // The row of a square, from 0, by quotient and its column by remainder: a form of the project (docs/DECISIONS.md).
    pub fn row(&self, square: u16) -> u64
        ensures { result ≡ square / self.now.across }
    {
        square as u64 / self.across
    }

    // The column of a square, from 0.
    pub fn column(&self, square: u16) -> u64
        ensures { result ≡ square % self.now.across }
    {
        square as u64 % self.across
    }

    // Whether it is a square of the field and no wall.
    pub fn is_free(&self, square: u16) -> bool
        ensures { result ≡ free_square (field_of self.now) square }
    {
        self.walls.get(square as usize) == Some(&0)
    }

    // Whether it is somebody's bay.
    pub fn is_bay(&self, square: u16) -> bool
        ensures { result ≡ is_bay (field_of self.now) square }
    {
        self.bays.contains(&square)
    }

    // Whether one square lies right of the other, in the same row, or below it; so it is exactly if a direction leads there.
    pub fn beside(&self, one: u16, other: u16) -> bool
        ensures beside { result ≡ beside (field_of self.now) one other }
        ensures leads { LeadsBeside (field_of self.now) }
    {
        let c = one as u64;
        let d = other as u64;
        let in_row = self.row(one) == self.row(other) && (c + 1 == d || d + 1 == c);
        in_row || c + self.across == d || d + self.across == c
    }

    // The square that a direction leads to; none past the edge of the field.
    #[tactic(auto, using(crate::proofs::Facts::long, crate::proofs::Facts::narrow), unfolding(rules::specs::Memory::field_in))]
    pub fn next(&self, square: u16, direction: Direction) -> Option<u16>
        ensures { result ≡ next (field_of self.now) square direction }
    {
        let c = square as u64;
        let squares = self.walls.len() as u64;
        match direction {
            Direction::Right if self.column(square) + 1 < self.across && c + 1 < squares => {
                Some((c + 1) as u16)
            }
            Direction::Down if c + self.across < squares => Some((c + self.across) as u16),
            Direction::Left if self.column(square) > 0 => Some((c - 1) as u16),
            Direction::Up if c >= self.across => Some((c - self.across) as u16),
            _ => None,
        }
    }

    // The direction from a square to one beside it.
    #[tactic(auto, using(crate::proofs::Facts::narrow), unfolding(rules::specs::Memory::field_in))]
    pub fn direction_to(&self, square: u16, other: u16) -> Direction
        ensures { result ≡ direction_to (field_of self.now) square other }
    {
        let c = square as u64;
        let d = other as u64;
        if c + self.across == d {
            Direction::Down
        } else if c + 1 == d {
            Direction::Right
        } else if d + self.across == c {
            Direction::Up
        } else {
            Direction::Left
        }
    }
}
