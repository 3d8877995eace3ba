// The reader of net sheets.
pub mod digits;
pub mod gates;
pub mod keys;
pub mod net;
pub mod references;
