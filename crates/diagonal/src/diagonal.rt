// A diagonal of the grid.
ghost use Rattle.std.specs.Prelude.{◌≡◌, Err, Ok, MatchResult};
ghost use Rattle.std.specs.Iterator.{YieldsFirst, item_count};
ghost use Rattle.grid.specs.Positions.{coordinates, member};
ghost use Rattle.object.specs.Cursors.{gives_its_list};
ghost use Rattle.object.specs.Meanings.{entities, positions, verdict};
ghost use Rattle.diagonal.specs.Diagonals.{diagonal_means};
ghost use Rattle.diagonal.specs.Laws.{lawful};

use grid::entity::Entity;
use grid::position::Position;
use grid::refusal::Refusal;
use grid::shape::{MAX_COUNT, Shape};
use object::cursor::Cursor;
use object::object::Object;
use object::selected::selected;
use std::ops::Range;

// What is left of both counts; the diagonal ends with the first that does.
#[derive(Drop)]
pub struct DiagonalIter {
    rows: Range<usize>,
    columns: Range<usize>,
}

impl Iterator for DiagonalIter {
    ghost use Rattle.diagonal.specs.Diagonals.{cells_left};

    type Item = Entity;

    ghost next_gives = { YieldsFirst cells_left };

    ghost remaining = { item_count cells_left };

    #[tactic(auto, using(crate::proofs::Steps::step, crate::proofs::Steps::no_rows, crate::proofs::Steps::no_columns))]
    fn next(&mut self) -> Option<Entity> {
        let row = self.rows.next()?;
        let column = self.columns.next()?;
        Some(Entity::Cell(row, column))
    }
}

impl Cursor for DiagonalIter {
    ghost use Rattle.diagonal.specs.Diagonals.{cells_left};

    ghost to_come = { cells_left };

    ghost laws = { gives_its_list cells_left };
}

// The cells down to the right from this column of the first row, as far as the grid goes.
#[derive(Clone, Copy, Debug, PartialEq, Eq)]
pub struct Diagonal {
    column: usize,
}

impl Diagonal {
    pub fn new(column: usize) -> Self
        ensures { result.column ≡ column }
    {
        Diagonal { column }
    }

    // Whether the diagonal has this position on a shape.
    pub fn contains(&self, position: Position, shape: Shape) -> Result<bool, Refusal>
        ensures { MatchResult result (λ b. (verdict (diagonal_means self.now.column shape) ≡ Ok tt) × (b ≡ member (coordinates position) (positions shape (entities (diagonal_means self.now.column shape))))) (λ e. verdict (diagonal_means self.now.column shape) ≡ Err e) }
    {
        let set = selected(self, shape)?;
        Ok(set.contains(position))
    }
}

impl Object for Diagonal {
    type Iter = DiagonalIter;

    ghost meaning = { λ x s. diagonal_means x.column s };

    ghost bounded = { λ x s. (lawful x.column s).0 };

    ghost distinct = { λ x s. (lawful x.column s).1 };

    fn test(&self, _shape: Shape) -> Result<(), Refusal> {
        if self.column >= MAX_COUNT {
            return Err(Refusal::OutOfRange);
        }
        Ok(())
    }

    fn cells(&self, shape: Shape) -> DiagonalIter {
        // A column that is refused lies past the columns of every shape.
        DiagonalIter {
            rows: 0..shape.rows(),
            columns: self.column..shape.columns(),
        }
    }
}
