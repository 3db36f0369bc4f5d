// Selectors: the interface that they all have, what code over any of them can rely on, and the selectors of one cell.
#![tactic(auto)]

pub mod cell;
pub mod cursor;
pub mod object;
pub mod selected;
pub mod single;
