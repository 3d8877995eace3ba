// The check of a net sheet against a table sheet.
#![tactic(auto)]

pub mod check;
pub mod same;
pub mod verdict;
