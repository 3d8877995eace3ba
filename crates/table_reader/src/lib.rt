// The reader of table sheets.
#![tactic(auto)]

pub mod digits;
pub mod fast;
pub mod full;
pub mod inks;
pub mod levels;
pub mod row;
pub mod rows;
pub mod sheet;
