// Marking as a job: opened on a table sheet, advanced one group per step, asked for a group's mark, and finished with the result of making. A job is
// passed and returned by value. Functions over its parts do the work, and the calls for C share them.
#![tactic(auto)]

pub mod asking;
pub mod finishing;
pub mod job;
pub mod next;
pub mod opening;
