// What a line asks for: a selector on a shape.
use crate::selector::{Selector, read_number, read_selector};
use grid::shape::Shape;
use std::error::Error;
use std::fmt;
use std::str::FromStr;

#[derive(Clone, Copy)]
pub(crate) struct Request {
    pub(crate) shape: Shape,
    pub(crate) selector: Selector,
}

// A line that asks for nothing.
#[derive(Clone, Copy, Debug, PartialEq, Eq)]
pub(crate) struct NoSelector;

impl fmt::Display for NoSelector {
    fn fmt<W: fmt::Write>(&self, f: &mut fmt::Formatter<W>) -> fmt::Result {
        f.write_str("not a selector on a shape")
    }
}

impl Error for NoSelector {}

fn read(line: &str) -> Option<Request> {
    let mut words = line.split_whitespace();
    let rows = read_number(&mut words)?;
    let columns = read_number(&mut words)?;
    let selector = read_selector(&mut words)?;
    let shape = Shape::new(rows, columns).ok()?;
    Some(Request { shape, selector })
}

impl FromStr for Request {
    type Err = NoSelector;

    fn from_str(line: &str) -> Result<Request, NoSelector> {
        read(line).ok_or(NoSelector)
    }
}
