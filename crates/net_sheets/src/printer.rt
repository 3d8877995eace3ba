// The printer of net sheets.
pub mod net;
pub mod output;
