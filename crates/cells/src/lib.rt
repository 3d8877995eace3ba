// Checks on the cells of a table: the first cell that is at least a bound, full tables, and bare cells; a full table as one value.
#![tactic(auto)]

pub mod bare;
pub mod bound;
pub mod full;
pub mod table;
