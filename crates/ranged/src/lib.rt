// Selectors over ranges of rows and columns, and the frame.
#![tactic(auto)]

pub mod frame;
pub mod segment;
pub mod span;
