// Rows of a range, and columns of a range.
ghost use Rattle.std.specs.Prelude.{◌≡◌};
ghost use Rattle.std.specs.Iterator.{YieldsFirst, item_count};
ghost use Rattle.grid.specs.Ranges.{resolved};
ghost use Rattle.object.specs.Cursors.{gives_its_list};
ghost use Rattle.ranged.specs.Ranged.{span_left, span_means};
ghost use Rattle.ranged.specs.Laws.{span};

use grid::entity::Entity;
use grid::range::bounds_to_usize;
use grid::refusal::Refusal;
use grid::shape::Shape;
use object::cursor::Cursor;
use object::object::Object;
use single::axis::{Axis, ColumnAxis, RowAxis};
use single::ends::{First, Last};
use single::nth::Nth;
use std::marker::PhantomData;
use std::ops::{Bound, Range, RangeBounds};

#[derive(Drop)]
pub struct SpanIter<A> {
    numbers: Range<usize>,
    axis: PhantomData<A>,
}

impl<A: Axis> Iterator for SpanIter<A> {
    type Item = Entity;

    ghost next_gives = { YieldsFirst (span_left A.line) };

    ghost remaining = { item_count (span_left A.line) };

    #[tactic(auto, using(crate::proofs::Spans::numbers_none, crate::proofs::Spans::numbers_first))]
    fn next(&mut self) -> Option<Entity> {
        let number = self.numbers.next()?;
        Some(A::line(number))
    }
}

impl<A: Axis> Cursor for SpanIter<A> {
    ghost to_come = { span_left A.line };

    ghost laws = { gives_its_list (span_left A.line) };
}

// The rows or columns from a start to an end, on the shape or not.
#[derive(Clone, Copy, Debug, PartialEq, Eq)]
pub struct Span<A> {
    range: (Bound<usize>, Bound<usize>),
    axis: PhantomData<A>,
}

pub type Rows = Span<RowAxis>;

pub type Columns = Span<ColumnAxis>;

impl<A: Axis> Span<A> {
    // A range that was iterated to its end has no bounds, and then nothing is said of the answer.
    pub fn new<R: RangeBounds<usize>>(range: R) -> Self
        ensures { R.has_bounds range → result.range ≡ (R.start_bound range, R.end_bound range) }
    {
        let start = range.start_bound().map(|n| *n);
        let end = range.end_bound().map(|n| *n);
        Span {
            range: (start, end),
            axis: PhantomData,
        }
    }

    pub fn one(index: usize) -> Nth<A>
        ensures { result.index ≡ index }
    {
        Nth::from(index)
    }

    pub fn first() -> First<A>
        ensures { result ≡ record { axis = record {} } }
    {
        First::new()
    }

    pub fn last() -> Last<A>
        ensures { result ≡ record { axis = record {} } }
    {
        Last::new()
    }

    // The range as a pair, on a shape.
    pub(crate) fn resolve(&self, shape: Shape) -> Result<(usize, usize), Refusal>
        ensures { result ≡ resolved self.now.range.0 self.now.range.1 (A.count shape) }
    {
        let (start, end) = self.range;
        bounds_to_usize(start, end, A::count(shape))
    }
}

impl<A: Axis> Object for Span<A> {
    type Iter = SpanIter<A>;

    ghost meaning = { λ x s. span_means A.line x.range (A.count s) };

    ghost bounded = { λ x s. (span s A.line A.number (A.tells s) A.small x.range (A.count s)).0 };

    ghost distinct = { λ x s. (span s A.line A.number (A.tells s) A.small x.range (A.count s)).1 };

    fn test(&self, shape: Shape) -> Result<(), Refusal> {
        self.resolve(shape)?;
        Ok(())
    }

    fn cells(&self, shape: Shape) -> SpanIter<A> {
        let (start, end) = self.resolve(shape).unwrap_or((0, 0));
        SpanIter {
            numbers: start..end,
            axis: PhantomData,
        }
    }
}
