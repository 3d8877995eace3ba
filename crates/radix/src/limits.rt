// The limits of a sheet, defined once for the code.
pub const FEWEST_LEVELS: usize = 2;

pub const MOST_LEVELS: usize = 9;

pub const FEWEST_INPUTS: usize = 2;

pub const MOST_INPUTS: usize = 12;

// The most gates of a net: one fewer than its inputs.
pub const MOST_GATES: usize = MOST_INPUTS - 1;

// The most digits of all gates of a net. nets/specs/Room.antt proves that no net of an allowed size has more.
pub const MOST_DIGITS: usize = 192;

pub const MOST_CELLS: usize = 4096;

// The most assignments kept for all groups, m for each group: 2 to the n, times m, is at most twice the number of cells.
pub const MOST_KEPT: usize = 2 * MOST_CELLS;

pub const MOST_NAME_BYTES: usize = 8;

// The length of the longest settled sheet.
pub const MOST_SETTLED: usize = 512;

// The most bytes that a program reads.
pub const MOST_READ: usize = 65536;

// The largest time of an arrival sheet, and its number of digits.
pub const MOST_TIME: usize = 65535;

pub const MOST_TIME_BYTES: usize = 5;
