// The tables of a wiring's gates by the class rule: the settled and the shallow net of a table.
#![tactic(auto)]

pub mod chosen;
pub mod fill;
pub mod gate_pass;
pub mod made;
pub mod samples;
pub mod settled;
pub mod shallow;
