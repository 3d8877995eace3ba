// What the three programs print. Their mains only read and write.
#![tactic(auto)]

pub mod input;
pub mod output;
pub mod refusal;
