// The shape of a sheet: how many rows and columns it has.
ghost use Rattle.std.specs.Prelude.{◌≡◌, ◌≤◌, MatchResult};

use crate::refusal::Refusal;

// No sheet has more rows or columns than this.
pub const MAX_COUNT: usize = 128;

#[derive(Clone, Copy, Debug, PartialEq, Eq)]
pub struct Shape {
    rows: usize,
    columns: usize,
    ghost tall: { rows ≤ 128 },
    ghost wide: { columns ≤ 128 },
}

impl Shape {
    ghost use Rattle.grid.specs.Positions.{is_empty};

    pub fn new(rows: usize, columns: usize) -> Result<Shape, Refusal>
        ensures { MatchResult result (λ s. (s.rows ≡ rows) × (s.columns ≡ columns)) (λ e. (e ≡ Refusal.OutOfRange) × (rows ≤ 128 → columns ≤ 128 → ⊥)) }
    {
        if rows > MAX_COUNT || columns > MAX_COUNT {
            return Err(Refusal::OutOfRange);
        }
        Ok(Shape { rows, columns })
    }

    pub fn rows(&self) -> usize
        ensures { result ≡ self.now.rows }
    {
        self.rows
    }

    pub fn columns(&self) -> usize
        ensures { result ≡ self.now.columns }
    {
        self.columns
    }

    // Whether there are no rows or no columns.
    pub fn is_empty(&self) -> bool
        ensures { result ≡ is_empty self.now }
    {
        let Shape { rows, columns } = *self;
        rows == 0 || columns == 0
    }
}
