// The marks of groups: of one group, of all groups, and how a caller's buffer stores them.
#![tactic(auto)]

pub mod all_groups;
pub mod fast;
pub mod group_mark;
pub mod marking;
pub mod no_tree;
pub mod own;
pub mod packing;
pub mod split;
