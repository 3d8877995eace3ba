// The index of a row that matches its frame: its bytes fit, and its ink is not a space.
ghost use Rattle.std.specs.Prelude.{◌≡◌, IfSome, ℕ, ◌+◌, ◌≤◌, length, slice_index};
ghost use Rattle.rules.specs.Limits.{most_cells};
ghost use Rattle.loose_sheets.specs.Fast.Frame.{most_laid, frame_length};
ghost use Rattle.loose_sheets.specs.Fast.Matching.{Fitted, InFrame};

use crate::fast::frame::{LEAST, WEIGHT};
use fields::runs::SPACE;
use std::num::wrapping_add_u16;

// Returns the weighted sum of the first `count` bytes of the row at `at`, if they all fit. No early exit from the loop, so the compiler can vectorise.
fn weigh(s: &[u8], at: usize, count: usize, frame: &[u16]) -> Option<usize>
    requires { (at + count ≤ length s.now) × (count ≤ most_laid) × (length frame.now ≡ frame_length)
        × ((k : ℕ) → slice_index frame.now (256 + k) ≤ most_cells) }
    ensures { IfSome result (Fitted s.now at frame.now count) }
{
    let mut over = false;
    let mut sum: u16 = 0;
    for k in 0..count {
        let byte = s[at + k] as u16;
        if wrapping_add_u16(byte, frame[k]) < frame[LEAST + k] {
            over = true;
        }
        sum = wrapping_add_u16(sum, byte % 16 * frame[WEIGHT + k]);
    }
    if over {
        return None;
    }
    Some(sum as usize)
}

// Returns the index of the row at `at` if it matches its frame, with room for whole steps of sixteen bytes.
pub fn framed_index(s: &[u8], at: usize, frame: &[u16], width: usize) -> Option<usize>
    requires { (width ≤ most_laid) × (length frame.now ≡ frame_length) × ((k : ℕ) → slice_index frame.now (256 + k) ≤ most_cells) }
    ensures { IfSome result (InFrame s.now at frame.now width) }
{
    let count = (width + 15) / 16 * 16;
    if s.len() < at {
        return None;
    }
    if s.len() - at <= count {
        return None;
    }
    if width == 0 {
        return None;
    }
    if s[at + width] == SPACE {
        return None;
    }
    weigh(s, at, count, frame)
}
