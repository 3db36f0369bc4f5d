// The cells of a range of rows and a range of columns.
ghost use Rattle.std.specs.Prelude.{◌≡◌};
ghost use Rattle.std.specs.Iterator.{YieldsFirst, item_count};
ghost use Rattle.object.specs.Cursors.{gives_its_list};
ghost use Rattle.ranged.specs.Ranged.{sector_left, segment_means, sector_of};
ghost use Rattle.ranged.specs.Laws.{segment};

use crate::span::{Columns, Rows};
use grid::entity::Entity;
use grid::iterator::EntityIterator;
use grid::refusal::Refusal;
use grid::shape::Shape;
use object::cursor::Cursor;
use object::object::Object;
use single::segment::SegmentAll;
use std::ops::RangeBounds;

#[derive(Drop)]
pub struct SectorIter {
    positions: EntityIterator,
}

impl Iterator for SectorIter {
    type Item = Entity;

    ghost next_gives = { YieldsFirst sector_left };

    ghost remaining = { item_count sector_left };

    fn next(&mut self) -> Option<Entity> {
        self.positions.next().map(|p| Entity::from(p))
    }
}

impl Cursor for SectorIter {
    ghost to_come = { sector_left };

    ghost laws = { gives_its_list sector_left };
}

// The cells with a row of the one range and a column of the other, on the shape or not.
#[derive(Clone, Copy, Debug, PartialEq, Eq)]
pub struct Segment {
    rows: Rows,
    columns: Columns,
}

impl Segment {
    pub fn new<R: RangeBounds<usize>, C: RangeBounds<usize>>(rows: R, columns: C) -> Self
        ensures rows { R.has_bounds rows → result.rows.range ≡ (R.start_bound rows, R.end_bound rows) }
        ensures columns { C.has_bounds columns → result.columns.range ≡ (C.start_bound columns, C.end_bound columns) }
    {
        Segment {
            rows: Rows::new(rows),
            columns: Columns::new(columns),
        }
    }

    pub fn all() -> SegmentAll
        ensures { result ≡ record {} }
    {
        SegmentAll
    }

    // Both ranges, resolved, the rows first.
    fn sector(&self, shape: Shape) -> Result<((usize, usize), (usize, usize)), Refusal>
        ensures { sector_of result ≡ segment_means self.now.rows.range self.now.columns.range shape }
    {
        Ok((self.rows.resolve(shape)?, self.columns.resolve(shape)?))
    }
}

impl Object for Segment {
    type Iter = SectorIter;

    ghost meaning = { λ x s. segment_means x.rows.range x.columns.range s };

    ghost bounded = { λ x s. (segment x.rows.range x.columns.range s).0 };

    ghost distinct = { λ x s. (segment x.rows.range x.columns.range s).1 };

    fn test(&self, shape: Shape) -> Result<(), Refusal> {
        self.sector(shape)?;
        Ok(())
    }

    fn cells(&self, shape: Shape) -> SectorIter {
        let (rows, columns) = self.sector(shape).unwrap_or(((0, 0), (0, 0)));
        SectorIter {
            positions: EntityIterator::sector(rows, columns),
        }
    }
}
