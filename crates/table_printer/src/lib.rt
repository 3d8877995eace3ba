// The printer of table sheets, and table writing.
#![tactic(auto)]

pub mod lengths;
pub mod rows;
pub mod table;
pub mod write;
