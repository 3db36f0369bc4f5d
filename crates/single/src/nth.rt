// Selectors of one row or one column, by its number.
ghost use Rattle.std.specs.Prelude.{◌≡◌};
ghost use Rattle.single.specs.Singles.{nth_meant};
ghost use Rattle.single.specs.Laws.{small_nth};

use crate::axis::{Axis, ColumnAxis, RowAxis};
use grid::entity::Entity;
use grid::refusal::Refusal;
use grid::shape::{MAX_COUNT, Shape};
use object::single::Single;
use std::marker::PhantomData;

// The row or the column of this number, on the shape or not.
#[derive(Clone, Copy, Debug, PartialEq, Eq)]
pub struct Nth<A> {
    index: usize,
    axis: PhantomData<A>,
}

pub type Row = Nth<RowAxis>;

pub type Column = Nth<ColumnAxis>;

impl<A: Axis> From<usize> for Nth<A> {
    ghost from_gives = { λ n r. r.index ≡ n };

    fn from(index: usize) -> Nth<A> {
        Nth {
            index,
            axis: PhantomData,
        }
    }
}

impl<A: Axis> From<Nth<A>> for usize {
    ghost from_gives = { λ r n. n ≡ r.index };

    fn from(selector: Nth<A>) -> usize {
        selector.index
    }
}

impl<A: Axis> Single for Nth<A> {
    ghost meant = { λ x _. nth_meant A.line x.index };

    ghost small = { λ x _. small_nth A.line A.small x.index };

    fn entity(&self, _shape: Shape) -> Result<Option<Entity>, Refusal> {
        if self.index < MAX_COUNT {
            Ok(Some(A::line(self.index)))
        } else {
            Err(Refusal::OutOfRange)
        }
    }
}
