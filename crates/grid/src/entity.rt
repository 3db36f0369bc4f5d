// What a selector lists: the whole grid, a row, a column, or a cell.
ghost use Rattle.std.specs.Prelude.{◌≡◌};

use crate::iterator::EntityIterator;
use crate::position::Position;
use crate::shape::Shape;
use std::fmt;

#[derive(Clone, Copy, Debug, PartialEq, Eq)]
pub enum Entity {
    Global,
    Row(usize),
    Column(usize),
    Cell(usize, usize),
}

impl Entity {
    ghost use Rattle.grid.specs.Positions.{positions_of, Lists};
    ghost use Rattle.grid.specs.Cursors.{remaining};

    // A cursor over the entity's positions on a shape, row by row.
    #[tactic(auto, using(crate::proofs::Listings::lists))]
    pub fn iter(self, shape: Shape) -> EntityIterator
        ensures means { remaining result ≡ positions_of shape self }
        ensures lists { Lists shape self (remaining result) }
    {
        EntityIterator::of(self, shape)
    }
}

impl From<Position> for Entity {
    ghost use Rattle.grid.specs.Positions.{cell_at, coordinates};

    ghost from_gives = { λ p e. e ≡ cell_at (coordinates p) };

    fn from(position: Position) -> Entity {
        Entity::Cell(position.row(), position.column())
    }
}

// In a word: all, R and a row, C and a column, or a cell's row and column.
impl fmt::Display for Entity {
    ghost use Rattle.std.specs.Prelude.{Some};
    ghost use Rattle.grid.specs.Printed.{printed_entity};

    ghost output = { λ e. Some (printed_entity e) };

    fn fmt<W: fmt::Write>(&self, f: &mut fmt::Formatter<W>) -> fmt::Result {
        match self {
            Entity::Global => write!(f, "all"),
            Entity::Row(r) => write!(f, "R{r}"),
            Entity::Column(c) => write!(f, "C{c}"),
            Entity::Cell(r, c) => write!(f, "{r}:{c}"),
        }
    }
}
