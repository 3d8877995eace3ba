// Writes text into a buffer: bytes, decimal values, the first three lines.
pub mod decimals;
pub mod header;
pub mod put;
pub mod wide;
