// A row with the expected bytes: all of them are known except the ink. They are compared eight at a time, or two at a time if there are few.
ghost use Rattle.std.specs.Prelude.{◌≡◌, true, IfSome, [], ◌∷◌, ◌++◌, ◌+◌, ◌*◌, ◌≤◌, ◌<◌, length, take};
ghost use Rattle.rules.specs.Limits.{most_levels, most_inputs};
ghost use Rattle.table_reader.specs.Fast.Words.{WordsOf};
ghost use Rattle.table_reader.specs.Fast.Due.{AreDigits, row_bytes, LevelsStand, RowStands};

use crate::fast::words::{LEVEL, Words, eight_bytes, four_bytes, middle_of, two_bytes};
use crate::inks::OPEN;
use fields::runs::{NEWLINE, ZERO};

// The ink 0 with a line feed, as two bytes.
const INK: usize = ZERO + 256 * NEWLINE as usize;

// The sign of an open cell with a line feed. It is less than `INK`.
const SIGN: usize = OPEN + 256 * NEWLINE as usize;

// Tests whether the first n levels are at `at`, each followed by a space.
fn are_levels(s: &[u8], at: usize, levels: &[u8], n: usize) -> bool
    requires { (n ≤ length levels.now) × AreDigits levels.now n × (at + 2 * n ≤ length s.now) }
    ensures { result ≡ true → LevelsStand s.now at (take n levels.now) (at + 2 * n) }
{
    for i in 0..n {
        if two_bytes(s, at + 2 * i) != LEVEL + levels[i] as usize {
            return false;
        }
    }
    true
}

// Does the same as `are_levels` for four levels or more.
fn are_wide(s: &[u8], at: usize, levels: &[u8], front: usize, words: Words) -> bool
    requires { (4 ≤ front) × (front ≤ length levels.now) × AreDigits levels.now front × (at + 2 * front ≤ length s.now) × (front ≤ most_inputs)
        × WordsOf levels.now front words }
    ensures { result ≡ true → LevelsStand s.now at (take front levels.now) (at + 2 * front) }
{
    let place = middle_of(front);
    if eight_bytes(s, at) != words.first {
        return false;
    }
    if eight_bytes(s, at + 2 * place) != words.middle {
        return false;
    }
    eight_bytes(s, at + 2 * (front - 4)) == words.last
}

// Does the same as `are_levels` for any number of levels.
fn levels_due(s: &[u8], at: usize, levels: &[u8], front: usize, words: Words) -> bool
    requires { (front ≤ length levels.now) × AreDigits levels.now front × (at + 2 * front ≤ length s.now) × (front ≤ most_inputs)
        × WordsOf levels.now front words }
    ensures { result ≡ true → LevelsStand s.now at (take front levels.now) (at + 2 * front) }
{
    if front < 4 {
        return are_levels(s, at, levels, front);
    }
    are_wide(s, at, levels, front, words)
}

// Returns the ink of the row at `at`, if the row is the expected one: the first `front` levels, then `before` and then `last`.
pub fn due_ink(
    s: &[u8],
    at: usize,
    levels: &[u8],
    words: Words,
    front: usize,
    before: usize,
    last: usize,
    m: usize,
) -> Option<usize>
    requires { (front ≤ length levels.now) × AreDigits levels.now front × (before < 10) × (last < 10) × (m ≤ most_levels)
        × (at + row_bytes front ≤ length s.now) × (front ≤ most_inputs) × WordsOf levels.now front words }
    ensures { IfSome result
        (λ ink. RowStands s.now at m (take front levels.now ++ (before ∷ []) ++ (last ∷ [])) ink (at + row_bytes front)) }
{
    if !levels_due(s, at, levels, front, words) {
        return None;
    }
    let end = at + 2 * front;
    if four_bytes(s, end) != LEVEL + before + 65536 * (LEVEL + last) {
        return None;
    }
    let ink = two_bytes(s, end + 4);
    if ink == SIGN {
        return Some(m);
    }
    if ink < INK {
        return None;
    }
    if m <= ink - INK {
        return None;
    }
    Some(ink - INK)
}
