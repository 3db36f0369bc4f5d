// A place of a sheet that can hold a mark.
#[derive(Clone, Copy, Debug, PartialEq, Eq)]
pub enum Place {
    // the line between the cells (row - 1, column) and (row, column)
    Across(usize, usize),
    // the line between the cells (row, column - 1) and (row, column)
    Down(usize, usize),
    // the left top corner of the cell (row, column)
    Point(usize, usize),
}
