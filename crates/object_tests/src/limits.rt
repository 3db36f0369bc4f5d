// The largest numbers that are accepted and the smallest that are not, on shapes with cells and without.
use crate::support::*;
use grid::entity::Entity;
use grid::position::Position;
use grid::refusal::Refusal;
use grid::shape::Shape;
use object::cell::Cell;
use ranged::segment::Segment;
use ranged::span::{Columns, Rows};
use single::nth::{Column, Row};
use std::ops::Bound;
use std::test::Fail;

const TOO_LARGE: [usize; 3] = [128, 129, usize::MAX];

fn shapes() -> Result<[Shape; 4], Refusal> {
    Ok([
        Shape::new(3, 3)?,
        Shape::new(0, 3)?,
        Shape::new(3, 0)?,
        Shape::new(128, 128)?,
    ])
}

#[test]
fn numbers_above_127(rt: HostRuntime) -> Result<(), Fail> {
    for shape in shapes()? {
        for n in TOO_LARGE {
            refuses(&rt, &Row::from(n), shape, 1)?;
            refuses(&rt, &Column::from(n), shape, 1)?;
            refuses(&rt, &(n, 0usize), shape, 1)?;
            refuses(&rt, &(0usize, n), shape, 1)?;
            refuses(&rt, &Cell::new(n, n), shape, 1)?;
            refuses(&rt, &(Rows::first() + n), shape, 1)?;
            refuses(&rt, &(Columns::first() + n), shape, 1)?;
        }
    }
    Ok(())
}

#[test]
fn offsets_above_127(rt: HostRuntime) -> Result<(), Fail> {
    for shape in shapes()? {
        for n in TOO_LARGE {
            refuses(&rt, &(Rows::last() + n), shape, 1)?;
            refuses(&rt, &(Rows::last() - n), shape, 1)?;
            refuses(&rt, &(Columns::last() + n), shape, 1)?;
            refuses(&rt, &(Columns::last() - n), shape, 1)?;
        }
    }
    Ok(())
}

#[test]
fn numbers_of_127(rt: HostRuntime) -> Result<(), Fail> {
    for shape in shapes()? {
        lists(&rt, &Row::from(127), shape, &[Entity::Row(127)])?;
        lists(&rt, &Column::from(127), shape, &[Entity::Column(127)])?;
        lists(&rt, &(127usize, 127usize), shape, &[Entity::Cell(127, 127)])?;
        lists(&rt, &Cell::new(127, 0), shape, &[Entity::Cell(127, 0)])?;
        lists(&rt, &Position::new(0, 127)?, shape, &[Entity::Cell(0, 127)])?;
        lists(&rt, &(Rows::first() + 127), shape, &[Entity::Row(127)])?;
        lists(
            &rt,
            &(Columns::first() + 127),
            shape,
            &[Entity::Column(127)],
        )?;
    }
    Ok(())
}

#[test]
fn counted_from_the_last(rt: HostRuntime) -> Result<(), Fail> {
    let small = Shape::new(3, 3)?;
    lists(&rt, &(Rows::last() - 2), small, &[Entity::Row(0)])?;
    lists(&rt, &(Rows::last() - 3), small, &[])?;
    lists(&rt, &(Rows::last() - 127), small, &[])?;
    lists(&rt, &(Rows::last() + 0), small, &[Entity::Row(2)])?;
    lists(&rt, &(Rows::last() + 1), small, &[Entity::Row(3)])?;
    lists(&rt, &(Rows::last() + 125), small, &[Entity::Row(127)])?;
    refuses(&rt, &(Rows::last() + 126), small, 6)?;
    let tall = Shape::new(128, 1)?;
    lists(&rt, &(Rows::last() + 0), tall, &[Entity::Row(127)])?;
    lists(&rt, &(Rows::last() - 127), tall, &[Entity::Row(0)])?;
    refuses(&rt, &(Rows::last() + 1), tall, 6)?;
    refuses(&rt, &(Rows::last() + 127), tall, 6)?;
    lists(&rt, &(Columns::last() + 127), tall, &[Entity::Column(127)])?;
    refuses(&rt, &(Columns::last() + 126), small, 6)
}

// The last row is looked for on a shape with rows and columns, the last column wherever there are columns.
#[test]
fn counted_from_the_last_of_nothing(rt: HostRuntime) -> Result<(), Fail> {
    for shape in [Shape::new(0, 3)?, Shape::new(3, 0)?, Shape::new(0, 0)?] {
        lists(&rt, &(Rows::last() + 0), shape, &[])?;
        lists(&rt, &(Rows::last() + 127), shape, &[])?;
        lists(&rt, &(Rows::last() - 0), shape, &[])?;
    }
    for shape in [Shape::new(3, 0)?, Shape::new(0, 0)?] {
        lists(&rt, &(Columns::last() + 127), shape, &[])?;
        lists(&rt, &(Columns::last() - 0), shape, &[])?;
    }
    let wide = Shape::new(0, 3)?;
    lists(&rt, &(Columns::last() - 0), wide, &[Entity::Column(2)])?;
    lists(&rt, &(Columns::last() - 3), wide, &[])?;
    lists(&rt, &(Columns::last() + 1), wide, &[Entity::Column(3)])?;
    refuses(&rt, &(Columns::last() + 126), wide, 6)
}

#[test]
fn ranges_that_are_refused(rt: HostRuntime) -> Result<(), Fail> {
    let refused = [
        (Bound::Unbounded, Bound::Included(128), 1),
        (Bound::Unbounded, Bound::Included(usize::MAX), 1),
        (Bound::Unbounded, Bound::Excluded(129), 1),
        (Bound::Included(129), Bound::Unbounded, 1),
        (Bound::Included(usize::MAX), Bound::Excluded(0), 1),
        (Bound::Excluded(0), Bound::Unbounded, 2),
        (Bound::Excluded(usize::MAX), Bound::Included(usize::MAX), 2),
    ];
    let all: (Bound<usize>, Bound<usize>) = (Bound::Unbounded, Bound::Unbounded);
    for shape in shapes()? {
        for (start, end, number) in refused {
            refuses(&rt, &Rows::new((start, end)), shape, number)?;
            refuses(&rt, &Columns::new((start, end)), shape, number)?;
            refuses(&rt, &Segment::new((start, end), all), shape, number)?;
            refuses(&rt, &Segment::new(all, (start, end)), shape, number)?;
        }
    }
    Ok(())
}

#[test]
fn rows_are_refused_before_columns(rt: HostRuntime) -> Result<(), Fail> {
    let late: (Bound<usize>, Bound<usize>) = (Bound::Unbounded, Bound::Included(128));
    let excluded: (Bound<usize>, Bound<usize>) = (Bound::Excluded(0), Bound::Unbounded);
    let shape = Shape::new(2, 2)?;
    refuses(&rt, &Segment::new(late, excluded), shape, 1)?;
    refuses(&rt, &Segment::new(excluded, late), shape, 2)
}

#[test]
fn to_and_fro(rt: HostRuntime) -> Result<(), Fail> {
    assert_eq!(rt; usize::from(Row::from(5)), 5);
    assert_eq!(rt; usize::from(Rows::one(usize::MAX)), usize::MAX);
    assert_eq!(rt; usize::from(Column::from(6)), 6);
    assert_eq!(rt; usize::from(Columns::one(300)), 300);
    assert_eq!(rt; <(usize, usize)>::from(Cell::from((7, 900))), (7, 900));
    assert_eq!(rt;
        <(usize, usize)>::from(Cell::from(Position::new(8, 9)?)),
        (8, 9)
    );
    Ok(())
}
