// The calls for C and Rust, over numbers and byte slices, one file for each. include/sitgurp.h declares them.
#![tactic(auto)]

pub mod arrival_times;
pub mod check;
pub mod family_count;
pub mod family_tree;
pub mod gate_line;
pub mod glyph;
pub mod job_finish;
pub mod job_mark;
pub mod job_open;
pub mod job_step;
pub mod keep;
pub mod lister_next;
pub mod lister_open;
pub mod make;
pub mod make_shallow;
pub mod mark;
pub mod multiplicity;
pub mod numbers;
pub mod settle;
pub mod settle_shallow;
pub mod shallower_sheet;
pub mod tidy;
pub mod version;
pub mod write_table;
