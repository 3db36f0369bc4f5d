// Tables of cases for the selectors, each with the entities or the refusal that its rules give.
#![tactic(auto)]

#[cfg(test)]
mod limits;
#[cfg(test)]
mod listings;
#[cfg(test)]
mod support;
