// The four directions in which a square may lie beside another, and their letters.
ghost use Rattle.std.specs.Prelude.{◌≡◌};
ghost use Rattle.field.specs.Directions.{letter_of, ReadsLetter};

use std::error::Error;
use std::fmt;

// In the order in which ways compare them.
#[derive(Clone, Copy, PartialEq, Eq, Debug)]
pub enum Direction {
    Right,
    Down,
    Left,
    Up,
}

impl Direction {
    pub const ALL: [Direction; 4] = [
        Direction::Right,
        Direction::Down,
        Direction::Left,
        Direction::Up,
    ];
}

impl From<Direction> for u8 {
    ghost from_gives = { λ d letter. letter ≡ letter_of d };

    fn from(direction: Direction) -> u8 {
        match direction {
            Direction::Right => b'r',
            Direction::Down => b'd',
            Direction::Left => b'l',
            Direction::Up => b'u',
        }
    }
}

// A letter that stands for no direction.
#[derive(Clone, Copy, PartialEq, Eq, Debug)]
pub struct OtherLetter(pub u8);

impl TryFrom<u8> for Direction {
    type Error = OtherLetter;

    ghost try_from_gives = { ReadsLetter };

    fn try_from(letter: u8) -> Result<Direction, OtherLetter> {
        match letter {
            b'r' => Ok(Direction::Right),
            b'd' => Ok(Direction::Down),
            b'l' => Ok(Direction::Left),
            b'u' => Ok(Direction::Up),
            _ => Err(OtherLetter(letter)),
        }
    }
}

impl fmt::Display for OtherLetter {
    fn fmt<W: fmt::Write>(&self, f: &mut fmt::Formatter<W>) -> fmt::Result {
        write!(f, "the letter {} stands for no direction", self.0)
    }
}

impl Error for OtherLetter {}
