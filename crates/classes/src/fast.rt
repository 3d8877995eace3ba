// A quicker count of the classes of a table of two levels. For speed only: `counting::class_firsts` does the same.
pub mod fold;
pub mod folded;
