// Reads rows whose bytes are exactly the expected ones, several bytes at a time. For speed only: `row` judges a row field by field.
pub mod blocks;
pub mod due_row;
pub mod words;
