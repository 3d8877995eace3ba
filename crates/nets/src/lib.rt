// A header and a net by value.
#![tactic(auto)]

pub mod forms;
pub mod layers;
pub mod names;
