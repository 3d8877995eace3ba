// Net sheets: the reader and the printer; also the text functions that all printers use.
#![tactic(auto)]

pub mod printer;
pub mod reader;
pub mod text;
