// Limits, powers, the count of the assignments, groups as bits, and the offsets of a group's assignments.
#![tactic(auto)]

pub mod levels;
pub mod limits;
pub mod members;
pub mod offsets;
pub mod powers;
