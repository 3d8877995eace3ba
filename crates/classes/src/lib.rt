// The comparison of two assignments of a group, and the count of a group's classes.
#![tactic(auto)]

pub mod alike;
pub mod counting;
pub mod differences;
pub mod fast;
pub mod keys;
pub mod multiplicity;
