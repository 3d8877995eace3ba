// Answers as numbers for C.
pub mod flat;
pub mod kept;
pub mod layered;
pub mod line;
pub mod named;
pub mod reached;
pub mod timing;
pub mod turn;
pub mod verdict;
