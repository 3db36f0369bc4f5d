// What the program `sheet` reads and prints: lines, what a line asks for, and the picture of a sheet.
#![tactic(auto)]

pub mod layout;
pub mod request;
pub mod respond;
pub mod text;
