// The number of trees of a group, and the wiring of each number.
#![tactic(auto)]

pub mod counts;
pub mod fast;
pub mod numbered;
