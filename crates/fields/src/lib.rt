// Fields, separators and the first three lines of a sheet, strict or loose.
#![tactic(auto)]

pub mod ends;
pub mod header;
pub mod numbers;
pub mod runs;
pub mod same;
pub mod steps;
pub mod words;
