// Arrival sheets, and when a net's output settles.
#![tactic(auto)]

pub mod arrival;
pub mod call;
pub mod joined;
pub mod settling;
pub mod sheet;
