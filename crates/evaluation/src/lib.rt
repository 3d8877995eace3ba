// A net's value at many assignments at once, and its table.
#![tactic(auto)]

pub mod fast;
pub mod gate;
pub mod lists;
pub mod table;
pub mod values;
