// Room for the lists of a net's wires, all but the last gate. specs/Lists proves that no net needs more.
use radix::limits::{MOST_CELLS, MOST_INPUTS, MOST_LEVELS};

pub const LIST_ROOM: usize = MOST_CELLS + MOST_INPUTS * MOST_LEVELS;
