// Which inputs are leaves, and the wirings chosen from the marks: the settled one and the shallow one.
#![tactic(auto)]

pub mod choice;
pub mod choose;
pub mod fast;
pub mod fewest_layers;
pub mod forms;
pub mod leaves;
pub mod shallow_split;
