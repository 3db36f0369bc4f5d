// A position: a row and a column. It may lie outside the shape that it is looked at on.
ghost use Rattle.std.specs.Prelude.{◌≡◌, ◌<◌, MatchResult};

use crate::refusal::Refusal;
use crate::shape::MAX_COUNT;

#[derive(Clone, Copy, Debug, PartialEq, Eq)]
pub struct Position {
    row: usize,
    column: usize,
    ghost low: { row < 128 },
    ghost near: { column < 128 },
}

impl Position {
    pub fn new(row: usize, column: usize) -> Result<Position, Refusal>
        ensures { MatchResult result (λ p. (p.row ≡ row) × (p.column ≡ column)) (λ e. (e ≡ Refusal.OutOfRange) × (row < 128 → column < 128 → ⊥)) }
    {
        if row >= MAX_COUNT || column >= MAX_COUNT {
            return Err(Refusal::OutOfRange);
        }
        Ok(Position { row, column })
    }

    // The same, where the caller knows that both numbers are small enough.
    pub(crate) fn at(row: usize, column: usize) -> Position
        requires low { row < 128 }
        requires near { column < 128 }
        ensures { (result.row ≡ row) × (result.column ≡ column) }
    {
        Position { row, column }
    }

    pub fn row(&self) -> usize
        ensures { result ≡ self.now.row }
    {
        self.row
    }

    pub fn column(&self) -> usize
        ensures { result ≡ self.now.column }
    {
        self.column
    }
}
