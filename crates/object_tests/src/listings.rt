// What each selector lists.
use crate::support::*;
use diagonal::diagonal::Diagonal;
use grid::entity::Entity;
use grid::position::Position;
use grid::refusal::Refusal;
use grid::shape::Shape;
use object::cursor::DynCursor;
use object::object::Object;
use object::selected::selected;
use ranged::frame::Frame;
use ranged::segment::Segment;
use ranged::span::{Columns, Rows};
use single::ends::{FirstColumn, FirstRow, LastColumn, LastRow};
use std::ops::Bound;
use std::test::Fail;

#[test]
fn firsts_and_lasts(rt: HostRuntime) -> Result<(), Fail> {
    let shape = Shape::new(2, 5)?;
    lists(&rt, &Rows::first(), shape, &[Entity::Row(0)])?;
    lists(&rt, &Rows::last(), shape, &[Entity::Row(1)])?;
    lists(&rt, &Columns::first(), shape, &[Entity::Column(0)])?;
    lists(&rt, &Columns::last(), shape, &[Entity::Column(4)])?;
    lists(&rt, &Segment::all(), shape, &[Entity::Global])
}

#[test]
fn on_empty_shapes(rt: HostRuntime) -> Result<(), Fail> {
    for shape in [Shape::new(0, 3)?, Shape::new(3, 0)?, Shape::new(0, 0)?] {
        lists(&rt, &Rows::first(), shape, &[])?;
        lists(&rt, &Rows::last(), shape, &[])?;
        lists(&rt, &Columns::first(), shape, &[])?;
        lists(&rt, &Columns::last(), shape, &[])?;
        lists(&rt, &Segment::all(), shape, &[Entity::Global])?;
        lists(&rt, &Frame, shape, &[])?;
        lists(&rt, &Diagonal::new(0), shape, &[])?;
    }
    Ok(())
}

#[test]
fn rows_and_columns_of_a_range(rt: HostRuntime) -> Result<(), Fail> {
    let shape = Shape::new(3, 2)?;
    let open: (Bound<usize>, Bound<usize>) = (Bound::Unbounded, Bound::Unbounded);
    let rows = [Entity::Row(0), Entity::Row(1), Entity::Row(2)];
    lists(&rt, &Rows::new(open), shape, &rows)?;
    lists(
        &rt,
        &Columns::new(open),
        shape,
        &[Entity::Column(0), Entity::Column(1)],
    )?;
    let from_two = (Bound::Included(2), Bound::Unbounded);
    lists(&rt, &Rows::new(from_two), shape, &[Entity::Row(2)])?;
    lists(&rt, &Columns::new(from_two), shape, &[])?;
    let outside = (Bound::Included(126), Bound::Included(127));
    lists(
        &rt,
        &Rows::new(outside),
        shape,
        &[Entity::Row(126), Entity::Row(127)],
    )?;
    lists(
        &rt,
        &Columns::new(outside),
        shape,
        &[Entity::Column(126), Entity::Column(127)],
    )
}

// A range is made of anything that has two bounds.
#[test]
fn ranges_as_they_are_written(rt: HostRuntime) -> Result<(), Fail> {
    let shape = Shape::new(3, 2)?;
    let rows = [Entity::Row(1), Entity::Row(2)];
    lists(&rt, &Rows::new(1..3), shape, &rows)?;
    lists(&rt, &Rows::new(1..=2), shape, &rows)?;
    lists(&rt, &Rows::new(1..), shape, &rows)?;
    lists(&rt, &Columns::new(..1), shape, &[Entity::Column(0)])?;
    lists(&rt, &Columns::new(..=0), shape, &[Entity::Column(0)])?;
    let cells = [Entity::Cell(2, 0), Entity::Cell(2, 1)];
    lists(&rt, &Segment::new(2.., ..), shape, &cells)
}

#[test]
fn empty_and_backward_ranges(rt: HostRuntime) -> Result<(), Fail> {
    let none = [
        (Bound::Included(2), Bound::Excluded(2)),
        (Bound::Included(2), Bound::Included(1)),
        (Bound::Included(5), Bound::Excluded(1)),
        (Bound::Included(128), Bound::Included(127)),
        (Bound::Included(128), Bound::Unbounded),
        (Bound::Unbounded, Bound::Excluded(0)),
    ];
    let some = (Bound::Included(0), Bound::Included(1));
    let shape = Shape::new(4, 4)?;
    for range in none {
        lists(&rt, &Rows::new(range), shape, &[])?;
        lists(&rt, &Columns::new(range), shape, &[])?;
        lists(&rt, &Segment::new(range, some), shape, &[])?;
        lists(&rt, &Segment::new(some, range), shape, &[])?;
    }
    Ok(())
}

#[test]
fn segments(rt: HostRuntime) -> Result<(), Fail> {
    let shape = Shape::new(2, 3)?;
    let two = (Bound::Included(1), Bound::Included(2));
    let last = (Bound::Included(2), Bound::Unbounded);
    let cells = [Entity::Cell(1, 2), Entity::Cell(2, 2)];
    lists(&rt, &Segment::new(two, last), shape, &cells)?;
    let first = (Bound::Unbounded, Bound::Excluded(1));
    let cells = [Entity::Cell(0, 1), Entity::Cell(0, 2)];
    lists(&rt, &Segment::new(first, two), shape, &cells)
}

#[test]
fn frames(rt: HostRuntime) -> Result<(), Fail> {
    let one = [Entity::Cell(0, 0)];
    lists(&rt, &Frame, Shape::new(1, 1)?, &one)?;
    let across = [Entity::Cell(0, 0), Entity::Cell(0, 1), Entity::Cell(0, 2)];
    lists(&rt, &Frame, Shape::new(1, 3)?, &across)?;
    let ring = [
        Entity::Cell(0, 0),
        Entity::Cell(0, 1),
        Entity::Cell(0, 2),
        Entity::Cell(1, 0),
        Entity::Cell(1, 2),
        Entity::Cell(2, 0),
        Entity::Cell(2, 1),
        Entity::Cell(2, 2),
    ];
    lists(&rt, &Frame, Shape::new(3, 3)?, &ring)
}

// By two loops, so that no cursor counts for itself.
fn count<O: Object>(object: &O, rows: usize, columns: usize) -> Result<u32, Refusal> {
    let set = selected(object, Shape::new(rows, columns)?)?;
    let mut found = 0u32;
    for row in 0..128 {
        for column in 0..128 {
            if set.contains(Position::new(row, column)?) {
                found = found.saturating_add(1);
            }
        }
    }
    Ok(found)
}

// The same code counts the positions of any selector, a foreign one too.
#[test]
fn positions(rt: HostRuntime) -> Result<(), Fail> {
    assert_eq!(rt; count(&Frame, 128, 128)?, 508);
    assert_eq!(rt; count(&Frame, 2, 128)?, 256);
    assert_eq!(rt; count(&Segment::all(), 128, 127)?, 16256);
    assert_eq!(rt; count(&Rows::last(), 5, 7)?, 7);
    assert_eq!(rt; count(&Diagonal::new(2), 5, 6)?, 4);
    assert_eq!(rt; count(&Diagonal::new(127), 128, 128)?, 1);
    Ok(())
}

#[test]
fn diagonals(rt: HostRuntime) -> Result<(), Fail> {
    let cells = [Entity::Cell(0, 1), Entity::Cell(1, 2)];
    lists(&rt, &Diagonal::new(1), Shape::new(4, 3)?, &cells)?;
    lists(&rt, &Diagonal::new(1), Shape::new(2, 9)?, &cells)?;
    lists(&rt, &Diagonal::new(3), Shape::new(4, 3)?, &[])?;
    refuses(&rt, &Diagonal::new(128), Shape::new(4, 3)?, 1)
}

const LAST: LastRow = LastRow;

// A selector of one value has it by its name, in a constant too.
#[test]
fn values_by_name(rt: HostRuntime) -> Result<(), Fail> {
    let shape = Shape::new(2, 5)?;
    lists(&rt, &FirstRow, shape, &[Entity::Row(0)])?;
    lists(&rt, &LAST, shape, &[Entity::Row(1)])?;
    lists(&rt, &(FirstColumn + 3), shape, &[Entity::Column(3)])?;
    lists(&rt, &(LastColumn - 1), shape, &[Entity::Column(3)])
}

fn next_two(cursor: &mut dyn DynCursor) -> (Option<Entity>, Option<Entity>) {
    let first = cursor.next_entity();
    (first, cursor.next_entity())
}

#[test]
fn cursors_behind_a_reference(rt: HostRuntime) -> Result<(), Fail> {
    let shape = Shape::new(2, 1)?;
    let mut cell = (1, 2).cells(shape);
    assert_eq!(rt; next_two(&mut cell), (Some(Entity::Cell(1, 2)), None));
    let mut rows = Rows::new(..).cells(shape);
    let both = (Some(Entity::Row(0)), Some(Entity::Row(1)));
    assert_eq!(rt; next_two(&mut rows), both);
    assert_eq!(rt; next_two(&mut rows), (None, None));
    Ok(())
}
