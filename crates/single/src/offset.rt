// Counting from the last row or column.
ghost use Rattle.std.specs.Prelude.{◌≡◌, ◌≤◌};
ghost use Rattle.single.specs.Singles.{from_last};

use grid::refusal::Refusal;
use grid::shape::MAX_COUNT;

#[derive(Clone, Copy, Debug, PartialEq, Eq)]
pub enum Offset {
    // so many past the last
    Plus(usize),
    // so many before the last
    Minus(usize),
}

impl Offset {
    // The number so far from the last of `count`; none before the first, or where the count is 0.
    pub(crate) fn from_last(self, count: usize) -> Result<Option<usize>, Refusal>
        requires { count ≤ 128 }
        ensures { result ≡ from_last count self }
    {
        match self {
            Offset::Plus(k) | Offset::Minus(k) if k >= MAX_COUNT => Err(Refusal::OutOfRange),
            Offset::Plus(_) if count == 0 => Ok(None),
            Offset::Plus(k) if count + k <= MAX_COUNT => Ok(Some(count - 1 + k)),
            Offset::Plus(_) => Err(Refusal::PastLast),
            Offset::Minus(k) if k < count => Ok(Some(count - 1 - k)),
            Offset::Minus(_) => Ok(None),
        }
    }
}
