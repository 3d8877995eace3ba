// Quicker ways to a net's values. For speed only: a simpler function does what each of these does.
pub mod by_table;
pub mod two_levels;
