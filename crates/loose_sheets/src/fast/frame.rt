// The layout of a sheet's rows: which bytes fit at each place of a row, and the weight of a level there in the index. In most sheets all rows
// have the layout of the first.
ghost use Rattle.std.specs.Prelude.{◌≡◌, ◌<◌, true};
ghost use Rattle.rules.specs.Limits.{size_fits};
ghost use Rattle.loose_sheets.specs.Fast.Frame.{most_laid, Framed};
ghost use Rattle.loose_sheets.specs.Fast.Laying.{Unlaid, placed};

use fields::runs::SPACE;
use radix::powers::power;
use std::num::wrapping_add_usize;

// The most places of a row that are compared. Twelve inputs below names of eight bytes take 108.
pub const MOST_LAID: usize = 128;

// A frame has a shift for each place, then a least sum for each place, then a weight for each place. A byte fits if the byte plus the shift, modulo
// 2^16, is at least the least sum. In an empty frame all are 0, and every byte fits. The space is 32: only 32 plus 65503 is 65535. The digits below m are
// from 48 on: with 65488 - m added they are from 65536 - m to 65535.
pub const FRAME: usize = 384;

pub const LEAST: usize = 128;

pub const WEIGHT: usize = 256;

// Tests whether there is a space at `place`.
fn is_space(s: &[u8], place: usize) -> bool {
    place < s.len() && s[place] == SPACE
}

// Sets place j of the frame.
fn put_place(frame: &mut [u16; FRAME], j: usize, shift: u16, least: u16, weight: u16)
    requires { j < most_laid }
    ensures { frame.new ≡ placed frame.old j shift least weight }
{
    frame[j] = shift;
    frame[LEAST + j] = least;
    frame[WEIGHT + j] = weight;
}

// Lays out the empty frame like the row at `at`, if each of its levels is one byte, and returns the place of the ink, or 0 for no frame. The row may
// be bad: no row is read by its frame alone.
pub fn lay(s: &[u8], at: usize, m: usize, n: usize, frame: &mut [u16; FRAME]) -> usize
    requires { (size_fits m n ≡ true) × Unlaid frame.old }
    ensures { Framed m n frame.new result }
{
    let mut i: usize = 0;
    let mut j: usize = 0;
    // A space takes one place and a level two: a `for` over the places would need a flag for the space that follows a level.
    while j < MOST_LAID - 1 {
        if is_space(s, wrapping_add_usize(at, j)) {
            if i == 0 {
                return 0;
            }
            put_place(frame, j, 65503, 65535, 0);
            j += 1;
        } else {
            if i == n {
                return j;
            }
            let weight = power(m, n - (i + 1)) as u16;
            put_place(frame, j, (65488 - m) as u16, (65536 - m) as u16, weight);
            put_place(frame, j + 1, 65503, 65535, 0);
            i += 1;
            j += 2;
        }
    }
    0
}
