// The shallower of two net sheets.
#![tactic(auto)]

pub mod sheet;
pub mod which;
