// A set of positions, one bit each.
ghost use Rattle.std.specs.Prelude.{◌≡◌, ℕ, ◌+◌, ◌*◌, false, ◌||◌};
ghost use Rattle.grid.specs.Positions.{same, coordinates};
ghost use Rattle.grid.specs.Sets.{has};

use crate::bits::BitTable;
use crate::position::Position;
use crate::shape::MAX_COUNT;

#[derive(Drop)]
pub struct PositionSet {
    bits: BitTable,
}

// The number of a position's bit: row by row, 128 to a row.
fn bit_number(position: Position) -> usize
    ensures { result ≡ position.row * 128 + position.column }
{
    position.row() * MAX_COUNT + position.column()
}

impl PositionSet {
    // The empty set.
    pub fn new() -> Self
        ensures { (a b : ℕ) → has result (a, b) ≡ false }
    {
        PositionSet {
            bits: BitTable::new(),
        }
    }

    pub fn insert(&mut self, position: Position)
        ensures { (a b : ℕ) → has self.new (a, b) ≡ (same (a, b) (coordinates position) || has self.old (a, b)) }
    {
        self.bits.set(bit_number(position));
    }

    pub fn contains(&self, position: Position) -> bool
        ensures { result ≡ has self.now (coordinates position) }
    {
        self.bits.get(bit_number(position))
    }
}
