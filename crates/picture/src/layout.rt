// The picture of a sheet: lines of points and across lines, and between them lines of down lines and cells.
ghost use Rattle.std.specs.Prelude.{◌≡◌};
ghost use Rattle.picture.specs.Finds.{Finds};
ghost use Rattle.picture.specs.Pictures.{On, Stands, width_of, Shows, LaidOut};

use crate::text::LINE_END;
use grid::place::Place;
use grid::refusal::Refusal;
use grid::shape::Shape;

const BLANK: u8 = b'.';

const CELL: u8 = b'o';

// What a character of the picture stands for.
#[derive(Clone, Copy, Debug, PartialEq, Eq)]
pub enum Spot {
    Mark(Place),
    Cell(usize, usize),
}

// What stands at this line and column of the picture; none outside it.
pub fn spot_at(shape: Shape, line: usize, column: usize) -> Option<Spot>
    ensures { Finds (λ s. On shape s × Stands s line column) result }
{
    if line > 2 * shape.rows() || column > 2 * shape.columns() {
        return None;
    }
    let r = line / 2;
    let c = column / 2;
    Some(match (line % 2, column % 2) {
        (0, 0) => Spot::Mark(Place::Point(r, c)),
        (0, _) => Spot::Mark(Place::Across(r, c)),
        (_, 0) => Spot::Mark(Place::Down(r, c)),
        _ => Spot::Cell(r, c),
    })
}

// How many characters a line of the picture has, its line end included.
fn width(shape: Shape) -> usize
    ensures { result ≡ width_of shape }
{
    2 * shape.columns() + 2
}

// Character k of the picture, counted line by line: nothing is drawn, so every place is blank.
fn character(shape: Shape, k: usize) -> u8
    ensures { Shows shape k result }
{
    let width = width(shape);
    match spot_at(shape, k / width, k % width) {
        Some(Spot::Mark(_)) => BLANK,
        Some(Spot::Cell(_, _)) => CELL,
        None => LINE_END,
    }
}

// Writes the picture to the front of the page, and answers how long it is. The page is lent, since the library
// allocates nothing.
pub fn lay_out(shape: Shape, page: &mut [u8]) -> Result<usize, Refusal>
    ensures { LaidOut shape page.old result page.new }
{
    let size = (2 * shape.rows() + 1) * width(shape);
    if page.len() < size {
        return Err(Refusal::ShortTable);
    }
    for (k, byte) in page[..size].iter_mut().enumerate() {
        *byte = character(shape, k);
    }
    Ok(size)
}
