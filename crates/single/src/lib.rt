// Selectors of at most one row or column, and of all cells.
#![tactic(auto)]

pub mod axis;
pub mod ends;
pub mod nth;
pub mod offset;
pub mod segment;
