// The selectors by their words.
use object::cell::Cell;
use ranged::frame::Frame;
use ranged::segment::Segment;
use ranged::span::{Columns, Rows};
use single::ends::{FirstColumn, FirstRow, LastColumn, LastColumnOffset, LastRow, LastRowOffset};
use single::nth::{Column, Row};
use single::segment::SegmentAll;
use std::ops::Bound;
use std::str::SplitWhitespace;

#[derive(Clone, Copy)]
pub(crate) enum Selector {
    Row(Row),
    Column(Column),
    Cell(Cell),
    Pair((usize, usize)),
    FirstRow(FirstRow),
    FirstColumn(FirstColumn),
    LastRow(LastRow),
    LastColumn(LastColumn),
    LastRowOffset(LastRowOffset),
    LastColumnOffset(LastColumnOffset),
    Rows(Rows),
    Columns(Columns),
    Segment(Segment),
    SegmentAll(SegmentAll),
    Frame(Frame),
}

pub(crate) fn read_number(words: &mut SplitWhitespace<'_>) -> Option<usize> {
    words.next()?.parse().ok()
}

fn read_bound(words: &mut SplitWhitespace<'_>) -> Option<Bound<usize>> {
    match words.next()? {
        "included" => Some(Bound::Included(read_number(words)?)),
        "excluded" => Some(Bound::Excluded(read_number(words)?)),
        "open" => Some(Bound::Unbounded),
        _ => None,
    }
}

fn read_range(words: &mut SplitWhitespace<'_>) -> Option<(Bound<usize>, Bound<usize>)> {
    Some((read_bound(words)?, read_bound(words)?))
}

// A selector that is made of numbers.
fn read_numbered(name: &str, words: &mut SplitWhitespace<'_>) -> Option<Selector> {
    let n = read_number(words)?;
    Some(match name {
        "Row" => Selector::Row(Rows::one(n)),
        "Column" => Selector::Column(Columns::one(n)),
        "Cell" => Selector::Cell(Cell::new(n, read_number(words)?)),
        "Pair" => Selector::Pair((n, read_number(words)?)),
        "FirstRow+" => Selector::Row(Rows::first() + n),
        "FirstColumn+" => Selector::Column(Columns::first() + n),
        "LastRow+" => Selector::LastRowOffset(Rows::last() + n),
        "LastRow-" => Selector::LastRowOffset(Rows::last() - n),
        "LastColumn+" => Selector::LastColumnOffset(Columns::last() + n),
        "LastColumn-" => Selector::LastColumnOffset(Columns::last() - n),
        _ => return None,
    })
}

pub(crate) fn read_selector(words: &mut SplitWhitespace<'_>) -> Option<Selector> {
    Some(match words.next()? {
        "FirstRow" => Selector::FirstRow(Rows::first()),
        "FirstColumn" => Selector::FirstColumn(Columns::first()),
        "LastRow" => Selector::LastRow(Rows::last()),
        "LastColumn" => Selector::LastColumn(Columns::last()),
        "SegmentAll" => Selector::SegmentAll(Segment::all()),
        "Frame" => Selector::Frame(Frame),
        "Rows" => Selector::Rows(Rows::new(read_range(words)?)),
        "Columns" => Selector::Columns(Columns::new(read_range(words)?)),
        "Segment" => Selector::Segment(Segment::new(read_range(words)?, read_range(words)?)),
        name => return read_numbered(name, words),
    })
}
