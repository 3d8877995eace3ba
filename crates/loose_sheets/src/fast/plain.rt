// A field of one digit with its separator right after it: two bytes, compared as one number. Most fields have this form; any other is judged by
// its run of bytes.
ghost use Rattle.std.specs.Prelude.{IfSome, ◌<◌, ◌≤◌};
ghost use Rattle.rules.specs.Limits.{most_levels};
ghost use Rattle.table_reader.specs.Fast.Plain.{Plain};

use fields::runs::ZERO;
use std::num::wrapping_sub_usize;
use table_reader::fast::words::two_bytes;

// Returns the digit below m at `at` with `due` after it. Bytes below the digit 0 wrap to more than any digit.
pub fn plain_digit(s: &[u8], at: usize, m: usize, due: u8) -> Option<usize>
    requires { m ≤ most_levels }
    ensures { IfSome result (λ d. Plain s.now at d due × (d < m)) }
{
    if s.len() < 2 {
        return None;
    }
    if s.len() - 2 < at {
        return None;
    }
    let zero = ZERO + 256 * due as usize;
    let two = two_bytes(s, at);
    let digit = wrapping_sub_usize(two, zero);
    if m <= digit {
        return None;
    }
    Some(digit)
}
