// The family of a table's trees: how many there are, and the net of each number.
#![tactic(auto)]

pub mod count;
pub mod marked;
pub mod net;
pub mod tree;
