// The reader of loose table sheets.
pub mod inks;
pub mod levels;
pub mod row;
pub mod rows;
pub mod sheet;
