// What a line asks for: a sheet's rows and columns, and which cells are drawn round.
ghost use Rattle.std.specs.Prelude.{◌≡◌, MatchResult};
ghost use Rattle.picture.specs.Finds.{Finds};
ghost use Rattle.picture.specs.Requests.{Numeral, Says, Asks, Chooses};

use crate::text::split_once;
use grid::refusal::Refusal;
use grid::shape::Shape;

// The program prints sheets of at most this many rows and columns.
pub const MAX_PRINTED: usize = 32;

#[derive(Clone, Copy, Debug, PartialEq, Eq)]
pub enum Choice {
    FirstRow,
    LastColumn,
    // all cells without (0, 1)
    AllButOne,
    // the cells (0, 0) and (1, 1)
    TwoCells,
    // one row past the last
    PastLastRow,
    // the frame inverted
    InnerCells,
}

// The choice of a number; there are six, counted from 1.
impl TryFrom<usize> for Choice {
    type Error = Refusal;

    ghost try_from_gives = { Chooses };

    fn try_from(number: usize) -> Result<Self, Refusal> {
        match number {
            1 => Ok(Choice::FirstRow),
            2 => Ok(Choice::LastColumn),
            3 => Ok(Choice::AllButOne),
            4 => Ok(Choice::TwoCells),
            5 => Ok(Choice::PastLastRow),
            6 => Ok(Choice::InnerCells),
            _ => Err(Refusal::OutOfRange),
        }
    }
}

#[derive(Clone, Copy, Debug, PartialEq, Eq)]
pub struct Request {
    pub shape: Shape,
    pub choice: Choice,
}

// The number that one to three digits write.
fn number(field: &[u8]) -> Option<usize>
    ensures { Finds (Numeral field.now) result }
{
    if field.is_empty() || field.len() > 3 {
        return None;
    }
    let mut value: usize = 0;
    for b in field {
        if !b.is_ascii_digit() {
            return None;
        }
        value = value * 10 + usize::from(*b - b'0');
    }
    Some(value)
}

// The three numbers of a line, with one space between them.
fn three_numbers(line: &[u8]) -> Option<(usize, usize, usize)>
    ensures { Finds (λ t. Says line.now t.0 t.1 t.2) result }
{
    let (first, rest) = split_once(line, b' ')?;
    let (second, third) = split_once(rest, b' ')?;
    Some((number(first)?, number(second)?, number(third)?))
}

// What the line asks for; any other line is out of range.
pub fn read_request(line: &[u8]) -> Result<Request, Refusal>
    ensures { MatchResult result (λ q. Asks line.now q) (λ e. (e ≡ Refusal.OutOfRange) × ((q : Request) → Asks line.now q → ⊥)) }
{
    let (rows, columns, choice) = three_numbers(line).ok_or(Refusal::OutOfRange)?;
    if rows > MAX_PRINTED || columns > MAX_PRINTED {
        return Err(Refusal::OutOfRange);
    }
    let shape = Shape::new(rows, columns)?;
    let choice = Choice::try_from(choice)?;
    Ok(Request { shape, choice })
}
