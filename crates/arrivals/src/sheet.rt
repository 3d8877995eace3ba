// The reader of arrival sheets.
pub mod lines;
pub mod reader;
pub mod times;
