// Keeping a net's wiring: its gates are filled again for another table.
#![tactic(auto)]

pub mod answer;
pub mod changed;
pub mod filled;
pub mod keep;
pub mod left_out;
pub mod wiring;
