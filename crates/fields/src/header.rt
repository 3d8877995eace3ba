// The first three lines of a sheet.
pub mod first_lines;
pub mod keys;
pub mod name_line;
pub mod names;
pub mod same;
pub mod values;
