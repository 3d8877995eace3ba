// The limits of a picture, and of the framed picture. Its border of zeros is as wide as the largest offset.
use evaluation::values::MOST_COLUMNS;

pub const MOST_SIDE: usize = 64;

pub const MOST_OFFSET: usize = 2;

// The cells of a row of the framed picture beside those of the picture's row.
pub const BORDER: usize = 2 * MOST_OFFSET;

// The lines of zeros above and below the picture, and one more, so that the last row of any input's levels is whole.
pub const FRAME_LINES: usize = BORDER + 1;

// The most cells on a side of a small picture.
pub const FEW_SIDE: usize = 16;

// The most gates whose values are computed for all rows at once.
pub const FEW_GATES: usize = 6;

// Room for the framed picture and the values of every gate: of a small picture, and of any picture whose values are computed for all rows or for half.
pub const FEW_VALUES: usize = (FEW_SIDE + FRAME_LINES + MOST_COLUMNS * FEW_SIDE)
    * (FEW_SIDE + BORDER);

pub const MOST_VALUES: usize = (MOST_SIDE + FRAME_LINES + FEW_GATES * MOST_SIDE)
    * (MOST_SIDE + BORDER);
