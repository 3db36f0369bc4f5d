// A cursor over the positions of a block, row by row.
ghost use Rattle.std.specs.Prelude.{◌≡◌, ◌+◌, ◌<◌, ◌≤◌, [], ◌∷◌};
ghost use Rattle.std.specs.Iterator.{YieldsFirstBy, item_count};
ghost use Rattle.grid.specs.Positions.{block, coordinates, sector, ListsSector};

use crate::entity::Entity;
use crate::position::Position;
use crate::shape::{MAX_COUNT, Shape};

// It stands at (row, column); the block goes on to the ends `right` and `bottom`, which are left out,
// and each further row begins at `left`. At or past `bottom` nothing is left.
#[derive(Drop)]
pub struct EntityIterator {
    row: usize,
    column: usize,
    left: usize,
    right: usize,
    bottom: usize,
    ghost inside: { column < right },
    ghost wide: { left < right },
    ghost near: { right ≤ 128 },
    ghost low: { bottom ≤ 128 },
}

impl EntityIterator {
    ghost use Rattle.grid.specs.Cursors.{remaining};
    ghost use Rattle.grid.specs.Positions.{positions_of};

    // The positions with a row of the one range and a column of the other. A range is its first number and
    // the one after its last; no position has a number above 127.
    #[tactic(auto, using(crate::proofs::Blocks::block_none, crate::proofs::Listings::lists_sector))]
    pub fn sector(rows: (usize, usize), columns: (usize, usize)) -> Self
        ensures means { remaining result ≡ sector rows columns }
        ensures lists { ListsSector rows columns (remaining result) }
    {
        let (top, bottom) = (rows.0, rows.1.min(MAX_COUNT));
        let (left, right) = (columns.0, columns.1.min(MAX_COUNT));
        if top >= bottom || left >= right {
            return EntityIterator::done();
        }
        EntityIterator::over((top, bottom - top), (left, right - left))
    }

    pub(crate) fn of(entity: Entity, shape: Shape) -> Self
        ensures { remaining result ≡ positions_of shape entity }
    {
        if shape.is_empty() {
            return EntityIterator::done();
        }
        let (rows, columns) = (shape.rows(), shape.columns());
        match entity {
            Entity::Global => EntityIterator::over((0, rows), (0, columns)),
            Entity::Row(r) if r < MAX_COUNT => EntityIterator::over((r, 1), (0, columns)),
            Entity::Column(c) if c < MAX_COUNT => EntityIterator::over((0, rows), (c, 1)),
            Entity::Cell(r, c) if r < MAX_COUNT && c < MAX_COUNT => {
                EntityIterator::over((r, 1), (c, 1))
            }
            _ => EntityIterator::done(),
        }
    }

    fn done() -> Self
        ensures { remaining result ≡ [] }
    {
        EntityIterator {
            row: 0,
            column: 0,
            left: 0,
            right: 1,
            bottom: 0,
        }
    }

    // The block of so many rows and so many columns, each from a first one on.
    #[tactic(auto, using(crate::proofs::Blocks::rest_block))]
    fn over(rows: (usize, usize), columns: (usize, usize)) -> Self
        requires low { rows.0 + rows.1 ≤ 128 }
        requires near { columns.0 + columns.1 ≤ 128 }
        requires wide { 0 < columns.1 }
        ensures { remaining result ≡ block rows.0 rows.1 columns.0 columns.1 }
    {
        let (left, count) = columns;
        EntityIterator {
            row: rows.0,
            column: left,
            left,
            right: left + count,
            bottom: rows.0 + rows.1,
        }
    }

    // Goes on to the next position, in this row or at the start of the next one. Over two ranges, the row at hand
    // would have to be kept beside them, and this would be no shorter.
    #[tactic(auto, using(crate::proofs::Blocks::rest_along, crate::proofs::Blocks::rest_turn))]
    fn advance(&mut self)
        requires { self.old.row < self.old.bottom }
        ensures { remaining self.old ≡ (self.old.row, self.old.column) ∷ remaining self.new }
    {
        if self.column + 1 < self.right {
            self.column += 1;
        } else {
            self.row += 1;
            self.column = self.left;
        }
    }
}

// Each call takes the front of what is left; at the end nothing is left, and stays so.
impl Iterator for EntityIterator {
    ghost use Rattle.grid.specs.Cursors.{remaining as positions_left};

    type Item = Position;

    ghost next_gives = { YieldsFirstBy coordinates positions_left };

    ghost remaining = { item_count positions_left };

    fn next(&mut self) -> Option<Position> {
        if self.row >= self.bottom {
            return None;
        }
        let found = Position::at(self.row, self.column);
        self.advance();
        Some(found)
    }
}
