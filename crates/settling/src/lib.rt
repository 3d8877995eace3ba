// Settling and making.
#![tactic(auto)]

pub mod calls;
pub mod chosen;
pub mod input;
pub mod into;
pub mod marked;
pub mod room;
pub mod shallow;
pub mod table;
