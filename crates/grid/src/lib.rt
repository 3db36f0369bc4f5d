// The words that the sheet is spoken in: refusals, shapes, positions, entities, ranges, places, and sets of positions.
#![tactic(auto)]

mod bits;
pub mod entity;
pub mod iterator;
pub mod place;
pub mod position;
pub mod range;
pub mod refusal;
pub mod set;
pub mod shape;
