// The answers that several calls share.
#![tactic(auto)]

pub mod layered;
pub mod named;
pub mod refusal;
