// How the buffer that a caller lends stores marks: four to a byte. Only this module packs marks.
ghost use Rattle.std.specs.Prelude.{◌≡◌, ◌+◌, ◌^◌, ◌≤◌, ◌<◌, length, take};
ghost use Rattle.rules.specs.Groups.Marks.{marks_length, stored_marks};
ghost use Rattle.rules.specs.Calls.Answers.{written};
ghost use Rattle.laws.specs.Nets.StoredMarks.{four_at, InTwoBits};
ghost use Rattle.radix.specs.Widths.{most_members};

use crate::own::MOST_GROUPS;
use radix::powers;

// The buffer length for the marks of the most inputs.
pub const MOST_MARKS: usize = MOST_GROUPS / 4;

// Returns the length that a marks buffer needs.
pub fn marks_length(n: usize) -> usize
    requires { n ≤ most_members }
    ensures { result ≡ marks_length n }
{
    powers::power(2, n) / 4
}

// Returns the four marks from `at` on in one byte, the first in its lowest two bits.
fn four(marks: &[u8], at: usize) -> u8
    requires { (at + 3 < length marks.now) × (InTwoBits (at + 4) marks.now) }
    ensures { result ≡ four_at marks.now at }
{
    marks[at] + 4 * marks[at + 1] + 16 * marks[at + 2] + 64 * marks[at + 3]
}

// Stores the marks of all groups at the front of the buffer, four at a time.
pub fn store(n: usize, marks: &[u8], buffer: &mut [u8])
    requires { (2 ≤ n) × (n ≤ most_members) × (2 ^ n ≤ length marks.now) × (InTwoBits (2 ^ n) marks.now)
        × (marks_length n ≤ length buffer.old) }
    ensures { buffer.new ≡ written buffer.old (stored_marks (take (2 ^ n) marks.now)) }
{
    for i in 0..marks_length(n) {
        buffer[i] = four(marks, 4 * i);
    }
}
