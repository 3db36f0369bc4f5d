// Rows and columns, as two cases of one thing.
ghost use Rattle.std.specs.Prelude.{◌≡◌, ℕ, ◌<◌, ◌≤◌, true};
ghost use Rattle.grid.specs.declared.entity.Entity.{Entity};
ghost use Rattle.grid.specs.declared.entity.Entity.TheVariants.{Row, Column};
ghost use Rattle.grid.specs.declared.shape.Shape.{Shape};
ghost use Rattle.grid.specs.Positions.{Coordinates, is_small, member, positions_of};
ghost use Rattle.object.specs.Laws.{row_tells, column_tells};
ghost use Rattle.single.specs.Singles.{rows_counted};
ghost use Rattle.std.proofs.lemmas.Bool.{lt-ltb};
ghost use Rattle.single.specs.Laws.{few_counted_rows};

use grid::entity::Entity;
use grid::shape::Shape;

pub trait Axis {
    // the row or the column of a number
    ghost line: { ℕ → Entity };

    // how many a shape has
    ghost count: { Shape → ℕ };

    // of how many the last is the one that an offset counts from
    ghost counted: { Shape → ℕ };

    // which of them a position is in
    ghost number: { Coordinates → ℕ };

    fn line(index: usize) -> Entity
        ensures { result ≡ line index };

    fn count(shape: Shape) -> usize
        ensures { result ≡ count shape };

    fn counted(shape: Shape) -> usize
        ensures { result ≡ counted shape };

    ghost small: { (n : ℕ) → n < 128 → is_small (line n) ≡ true };

    ghost few: { (s : Shape) → count s ≤ 128 };

    ghost few_counted: { (s : Shape) → counted s ≤ 128 };

    ghost tells: { (s : Shape) (n : ℕ) (p : Coordinates) → member p (positions_of s (line n)) ≡ true → number p ≡ n };
}

#[derive(Clone, Copy, Debug, PartialEq, Eq)]
pub struct RowAxis;

impl Axis for RowAxis {
    ghost line = { Row };

    ghost count = { λ s. s.rows };

    ghost counted = { rows_counted };

    ghost number = { λ p. p.0 };

    ghost small = { λ n h. lt-ltb n 128 h };

    ghost few = { λ s. s.tall };

    ghost few_counted = { few_counted_rows };

    ghost tells = { row_tells };

    fn line(index: usize) -> Entity {
        Entity::Row(index)
    }

    fn count(shape: Shape) -> usize {
        shape.rows()
    }

    // A shape without columns has no last row to count from.
    fn counted(shape: Shape) -> usize {
        if shape.is_empty() { 0 } else { shape.rows() }
    }
}

#[derive(Clone, Copy, Debug, PartialEq, Eq)]
pub struct ColumnAxis;

impl Axis for ColumnAxis {
    ghost line = { Column };

    ghost count = { λ s. s.columns };

    ghost counted = { λ s. s.columns };

    ghost number = { λ p. p.1 };

    ghost small = { λ n h. lt-ltb n 128 h };

    ghost few = { λ s. s.wide };

    ghost few_counted = { λ s. s.wide };

    ghost tells = { column_tells };

    fn line(index: usize) -> Entity {
        Entity::Column(index)
    }

    fn count(shape: Shape) -> usize {
        shape.columns()
    }

    // A shape without rows may still have a last column to count from.
    fn counted(shape: Shape) -> usize {
        Self::count(shape)
    }
}
