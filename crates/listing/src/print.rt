// What a selector lists, in one line: `=` and then each entity, or its refusal.
use crate::request::Request;
use crate::selector::Selector;
use grid::shape::Shape;
use object::object::Object;
use std::io;
use std::io::Write;

fn list<W: Write, O: Object>(out: &mut W, object: &O, shape: Shape) -> io::Result<()> {
    if let Err(refusal) = object.test(shape) {
        return writeln!(out, "{refusal}");
    }
    write!(out, "=")?;
    for entity in object.cells(shape) {
        write!(out, " {entity}")?;
    }
    writeln!(out)
}

// A case for each selector: each has a cursor of its own type, so there is no `dyn Object`.
pub(crate) fn entities<W: Write>(out: &mut W, request: Request) -> io::Result<()> {
    let Request { shape, selector } = request;
    match selector {
        Selector::Row(x) => list(out, &x, shape),
        Selector::Column(x) => list(out, &x, shape),
        Selector::Cell(x) => list(out, &x, shape),
        Selector::Pair(x) => list(out, &x, shape),
        Selector::FirstRow(x) => list(out, &x, shape),
        Selector::FirstColumn(x) => list(out, &x, shape),
        Selector::LastRow(x) => list(out, &x, shape),
        Selector::LastColumn(x) => list(out, &x, shape),
        Selector::LastRowOffset(x) => list(out, &x, shape),
        Selector::LastColumnOffset(x) => list(out, &x, shape),
        Selector::Rows(x) => list(out, &x, shape),
        Selector::Columns(x) => list(out, &x, shape),
        Selector::Segment(x) => list(out, &x, shape),
        Selector::SegmentAll(x) => list(out, &x, shape),
        Selector::Frame(x) => list(out, &x, shape),
    }
}
