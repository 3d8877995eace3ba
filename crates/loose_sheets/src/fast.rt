// Reads rows that have the layout of the first row, sixteen bytes at a time. For speed only: `reader::row` judges a row field by field.
pub mod frame;
pub mod matching;
pub mod plain;
