// The gate lister: the gate lines of an accepted net sheet, one at each turn.
#![tactic(auto)]

pub mod calls;
pub mod places;
pub mod turns;
pub mod walk;
