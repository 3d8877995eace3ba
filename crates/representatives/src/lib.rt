// Representatives of every group's classes, each found from those of the smaller groups. This crate exists only for speed: it lets marking visit few cells.
// `marks::group_mark` is the plain way to mark one group.
#![tactic(auto)]

pub mod classifying;
pub mod counting;
pub mod extension;
pub mod first_rows;
pub mod group;
pub mod rows;
pub mod source;
pub mod witnesses;
