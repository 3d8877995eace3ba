// Loose table sheets: the reader, and tidying.
#![tactic(auto)]

pub mod fast;
pub mod reader;
pub mod tidy;
