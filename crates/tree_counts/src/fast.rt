// Counts by size, for groups whose parts all have mark 2. For speed only: `counts` has the plain recursion.
pub mod full;
