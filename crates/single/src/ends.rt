// Selectors of the first and the last row or column, and of those at an offset from them.
ghost use Rattle.std.specs.Prelude.{◌≡◌};
ghost use Rattle.single.specs.declared.offset.Offset.TheVariants.{Plus, Minus};
ghost use Rattle.single.specs.Singles.{first_meant, last_meant, from_last, named};
ghost use Rattle.single.specs.Laws.{small_first, small_last, small_from_last};

use crate::axis::{Axis, ColumnAxis, RowAxis};
use crate::nth::Nth;
use crate::offset::Offset;
use grid::entity::Entity;
use grid::refusal::Refusal;
use grid::shape::Shape;
use object::single::Single;
use std::marker::PhantomData;
use std::ops::{Add, Sub};

// The first row or column; none on an empty shape.
#[derive(Clone, Copy, Debug, PartialEq, Eq)]
pub struct First<A> {
    axis: PhantomData<A>,
}

pub type FirstRow = First<RowAxis>;

pub type FirstColumn = First<ColumnAxis>;

// Their values, by the same names: a constant's value may not call `new`.
pub const FirstRow: FirstRow = First { axis: PhantomData };

pub const FirstColumn: FirstColumn = First { axis: PhantomData };

impl<A: Axis> First<A> {
    pub fn new() -> Self
        ensures { result ≡ record { axis = record {} } }
    {
        First { axis: PhantomData }
    }
}

// So many past the first, on the shape or not.
impl<A: Axis> Add<usize> for First<A> {
    type Output = Nth<A>;

    ghost add_gives = { λ _ offset r. r.index ≡ offset };

    fn add(self, offset: usize) -> Nth<A> {
        Nth::from(offset)
    }
}

impl<A: Axis> Single for First<A> {
    ghost meant = { λ _ s. first_meant A.line s };

    ghost small = { λ _ s. small_first A.line A.small s };

    fn entity(&self, shape: Shape) -> Result<Option<Entity>, Refusal> {
        if shape.is_empty() {
            return Ok(None);
        }
        Ok(Some(A::line(0)))
    }
}

// The last row or column; none on an empty shape.
#[derive(Clone, Copy, Debug, PartialEq, Eq)]
pub struct Last<A> {
    axis: PhantomData<A>,
}

pub type LastRow = Last<RowAxis>;

pub type LastColumn = Last<ColumnAxis>;

// Their values, by the same names: a constant's value may not call `new`.
pub const LastRow: LastRow = Last { axis: PhantomData };

pub const LastColumn: LastColumn = Last { axis: PhantomData };

impl<A: Axis> Last<A> {
    pub fn new() -> Self
        ensures { result ≡ record { axis = record {} } }
    {
        Last { axis: PhantomData }
    }
}

// So many past the last.
impl<A: Axis> Add<usize> for Last<A> {
    type Output = LastOffset<A>;

    ghost add_gives = { λ _ offset r. r.offset ≡ Plus offset };

    fn add(self, offset: usize) -> LastOffset<A> {
        LastOffset::from(Offset::Plus(offset))
    }
}

// So many before the last.
impl<A: Axis> Sub<usize> for Last<A> {
    type Output = LastOffset<A>;

    ghost sub_gives = { λ _ offset r. r.offset ≡ Minus offset };

    fn sub(self, offset: usize) -> LastOffset<A> {
        LastOffset::from(Offset::Minus(offset))
    }
}

impl<A: Axis> Single for Last<A> {
    ghost meant = { λ _ s. last_meant A.line (A.count s) s };

    ghost small = { λ _ s. small_last A.line A.small (A.count s) (A.few s) s };

    fn entity(&self, shape: Shape) -> Result<Option<Entity>, Refusal> {
        if shape.is_empty() {
            return Ok(None);
        }
        // The count is not 0 here, but no law of `Axis` says so.
        Ok(Some(A::line(A::count(shape).saturating_sub(1))))
    }
}

// The row or column so far from the last; none where there is no last one.
#[derive(Clone, Copy, Debug, PartialEq, Eq)]
pub struct LastOffset<A> {
    offset: Offset,
    axis: PhantomData<A>,
}

pub type LastRowOffset = LastOffset<RowAxis>;

pub type LastColumnOffset = LastOffset<ColumnAxis>;

impl<A: Axis> From<Offset> for LastOffset<A> {
    ghost from_gives = { λ o r. r.offset ≡ o };

    fn from(offset: Offset) -> LastOffset<A> {
        LastOffset {
            offset,
            axis: PhantomData,
        }
    }
}

impl<A: Axis> Single for LastOffset<A> {
    ghost meant = { λ x s. named A.line (from_last (A.counted s) x.offset) };

    ghost small = { λ x s. small_from_last A.line A.small (A.counted s) (A.few_counted s) x.offset };

    fn entity(&self, shape: Shape) -> Result<Option<Entity>, Refusal> {
        let number = self.offset.from_last(A::counted(shape))?;
        Ok(number.map(|n| A::line(n)))
    }
}
