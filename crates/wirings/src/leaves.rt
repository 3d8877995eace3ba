// Which inputs matter, and the leaves of a table.
pub mod group;
pub mod matters;
