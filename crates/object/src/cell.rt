// Selectors of one cell.
ghost use Rattle.std.specs.Prelude.{◌≡◌};
ghost use Rattle.grid.specs.Positions.{coordinates};
ghost use Rattle.object.specs.Cells.{cell_meant, position_meant};
ghost use Rattle.object.specs.Laws.{small_cell, small_position};

use crate::single::Single;
use grid::entity::Entity;
use grid::position::Position;
use grid::refusal::Refusal;
use grid::shape::{MAX_COUNT, Shape};

// The cell of this row and column, on the shape or not.
#[derive(Clone, Copy, Debug, PartialEq, Eq)]
pub struct Cell(usize, usize);

impl Cell {
    pub fn new(row: usize, column: usize) -> Self
        ensures { (result.0 ≡ row) × (result.1 ≡ column) }
    {
        Cell(row, column)
    }
}

impl From<(usize, usize)> for Cell {
    ghost from_gives = { λ p r. (r.0 ≡ p.0) × (r.1 ≡ p.1) };

    fn from(pair: (usize, usize)) -> Cell {
        Cell(pair.0, pair.1)
    }
}

impl From<Cell> for (usize, usize) {
    ghost from_gives = { λ x r. (r.0 ≡ x.0) × (r.1 ≡ x.1) };

    fn from(cell: Cell) -> (usize, usize) {
        (cell.0, cell.1)
    }
}

impl From<Position> for Cell {
    ghost from_gives = { λ p r. (r.0 ≡ p.row) × (r.1 ≡ p.column) };

    fn from(position: Position) -> Cell {
        Cell(position.row(), position.column())
    }
}

impl Single for (usize, usize) {
    ghost meant = { λ x _. cell_meant x.0 x.1 };

    ghost small = { λ x s. small_cell x.0 x.1 };

    fn entity(&self, _shape: Shape) -> Result<Option<Entity>, Refusal> {
        if self.0 < MAX_COUNT && self.1 < MAX_COUNT {
            Ok(Some(Entity::Cell(self.0, self.1)))
        } else {
            Err(Refusal::OutOfRange)
        }
    }
}

impl Single for Cell {
    ghost meant = { λ x _. cell_meant x.0 x.1 };

    ghost small = { λ x s. small_cell x.0 x.1 };

    fn entity(&self, shape: Shape) -> Result<Option<Entity>, Refusal> {
        (self.0, self.1).entity(shape)
    }
}

impl Single for Position {
    ghost meant = { λ x _. position_meant (coordinates x) };

    ghost small = { λ x s. small_position (coordinates x) x.low x.near };

    fn entity(&self, _shape: Shape) -> Result<Option<Entity>, Refusal> {
        Ok(Some(Entity::from(*self)))
    }
}
