// A row's bytes as numbers of two, four and eight bytes: those read and those expected.
ghost use Rattle.std.specs.Prelude.{◌≡◌, ◌+◌, ◌*◌, ◌≤◌, ◌<◌, length, get_or};
ghost use Rattle.rules.specs.Limits.{most_inputs};
ghost use Rattle.table_reader.specs.Fast.Words.{pair_at, word_at, due_pair, due_word, middle_of, WordsOf};

use fields::runs::{SPACE, ZERO};

// The level 0 with a space after it, as two bytes.
pub const LEVEL: usize = ZERO + 256 * SPACE as usize;

// Returns the two bytes at `at` as a number, the lowest first.
pub fn two_bytes(s: &[u8], at: usize) -> usize
    requires { at + 1 < length s.now }
    ensures { (result ≡ get_or s.now at 0 + 256 * get_or s.now (at + 1) 0) × (get_or s.now at 0 < 256) × (result < 65536) }
{
    s[at] as usize + 256 * s[at + 1] as usize
}

// Returns the four bytes at `at` as a number.
pub fn four_bytes(s: &[u8], at: usize) -> usize
    requires { at + 3 < length s.now }
    ensures { (result ≡ pair_at s.now at + 65536 * pair_at s.now (at + 2)) × (result < 4294967296) }
{
    two_bytes(s, at) + 65536 * two_bytes(s, at + 2)
}

// Returns the eight bytes at `at` as a number.
pub fn eight_bytes(s: &[u8], at: usize) -> usize
    requires { at + 7 < length s.now }
    ensures { result ≡ word_at s.now at }
{
    four_bytes(s, at) + 4294967296 * four_bytes(s, at + 4)
}

// Returns the four bytes expected for two levels, from place i on, as a number.
fn due_two(levels: &[u8], i: usize) -> usize
    requires { i + 1 < length levels.now }
    ensures { (result ≡ due_pair (get_or levels.now i 0) + 65536 * due_pair (get_or levels.now (i + 1) 0)) × (result < 4294967296) }
{
    LEVEL + levels[i] as usize + 65536 * (LEVEL + levels[i + 1] as usize)
}

// Returns the eight bytes expected for four levels as a number.
fn due_four(levels: &[u8], i: usize) -> usize
    requires { i + 3 < length levels.now }
    ensures { result ≡ due_word levels.now i }
{
    due_two(levels, i) + 4294967296 * due_two(levels, i + 2)
}

// Returns where the second four of `front` levels start: the first four, these and the last four cover all levels.
pub fn middle_of(front: usize) -> usize
    requires { (4 ≤ front) × (front ≤ most_inputs) }
    ensures { result ≡ middle_of front }
{
    if front < 8 {
        return front - 4;
    }
    4
}

// The expected bytes of the first four levels, of four in the middle and of the last four.
#[derive(Clone, Copy)]
pub struct Words {
    pub first: usize,
    pub middle: usize,
    pub last: usize,
}

// Returns the expected words of a row. They are used only if there are four levels or more.
pub fn words_of(levels: &[u8], front: usize) -> Words
    requires { (front ≤ length levels.now) × (front ≤ most_inputs) }
    ensures { WordsOf levels.now front result }
{
    if front < 4 {
        return Words {
            first: 0,
            middle: 0,
            last: 0,
        };
    }
    let first = due_four(levels, 0);
    let middle = due_four(levels, middle_of(front));
    let last = due_four(levels, front - 4);
    Words {
        first,
        middle,
        last,
    }
}
