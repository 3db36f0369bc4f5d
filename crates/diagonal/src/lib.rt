// A selector of another crate's own: it joins the others by showing the same two laws.
#![tactic(auto)]

pub mod diagonal;
