// Glyphs for the panel product, above the net library.
#![tactic(auto)]

pub mod call;
pub mod frame;
pub mod limits;
pub mod offsets;
pub mod picture;
pub mod print;
pub mod rows;
