// Writes a row's levels four at a time: four levels, each with the space after it, form one number, which is written and incremented as a whole.
ghost use Rattle.std.specs.Prelude.{◌≡◌, List, [], ◌∷◌, ℕ, ◌+◌, ◌*◌, ◌≤◌, ◌<◌, length};
ghost use Rattle.std.proofs.lemmas.List.Edits.{sets};
ghost use Rattle.rules.specs.Limits.{most_levels, most_inputs};
ghost use Rattle.laws.specs.Numbers.Levels.{next_levels};
ghost use Rattle.net_sheets.specs.Text.Put.{Put};
ghost use Rattle.table_printer.specs.Rows.Rows.{row_text};
ghost use Rattle.table_printer.specs.Rows.Words.{word_bytes, FrontPut, PrintedSpells};
ghost use Rattle.table_printer.specs.Rows.Next.{four_word, FourNext};

use radix::levels::next_levels;
use table_reader::fast::words::{LEVEL, Words, words_of};

// The level 0 followed by a space, four times.
pub const ZEROS: usize = LEVEL + 65536 * LEVEL + 4294967296 * (LEVEL + 65536 * LEVEL);

// Writes the eight bytes of a number, the lowest first.
fn put_word(word: usize, out: &mut [u8], at: usize)
    requires { at + 8 ≤ length out.old }
    ensures { out.new ≡ sets out.old at (word_bytes word) }
{
    out[at..at + 8].copy_from_slice(&word.to_le_bytes());
}

// Writes the first four of n levels and, if n is over eight, the next four; returns how many it wrote.
fn put_front(words: Words, n: usize, out: &mut [u8], at: usize) -> usize
    requires { (4 ≤ n) × (n ≤ most_inputs) × (at + 2 * n ≤ length out.old) }
    ensures { FrontPut words n out.old at out.new result }
{
    put_word(words.first, out, at);
    if n <= 8 {
        return 4;
    }
    put_word(words.middle, out, at + 8);
    8
}

// Writes a row of four levels or more. The last four overwrite what was written there before.
pub fn wide_row(words: Words, n: usize, ink: u8, out: &mut [u8], at: usize) -> usize
    requires { (4 ≤ n) × (n ≤ most_inputs) × (at + (2 * n + 2) ≤ length out.old) }
    ensures { (m : ℕ) (levels ls : List ℕ) → m ≤ most_levels → PrintedSpells m n words levels ls
        → Put out.old at (row_text ls ink) out.new result }
{
    put_front(words, n, out, at);
    put_word(words.last, out, at + 2 * (n - 4));
    let p = at + 2 * n;
    out[p] = ink;
    out[p + 1] = b'\n';
    p + 2
}

// Returns the word of the next four levels: the last one below the highest is incremented, and those after it become 0.
fn next_four(m: usize, word: usize) -> usize
    requires { (0 < m) × (m ≤ most_levels) }
    ensures { (a b c d : ℕ) → a < m → b < m → c < m → d < m → word ≡ four_word a b c d → FourNext m (a ∷ b ∷ c ∷ d ∷ []) result }
{
    let top = m - 1;
    if word / 281474976710656 < LEVEL + top {
        return word + 281474976710656;
    }
    let third = word - 281474976710656 * top;
    if third / 4294967296 % 65536 < LEVEL + top {
        return third + 4294967296;
    }
    let second = third - 4294967296 * top;
    if second / 65536 % 65536 < LEVEL + top {
        return second + 65536;
    }
    let first = second - 65536 * top;
    if first % 65536 < LEVEL + top {
        return first + 1;
    }
    first - top
}

// Returns the words of the next row. `levels` has the levels before the last four; they change when the last four become zeros.
pub fn next_words(m: usize, n: usize, words: Words, levels: &mut [u8]) -> Words
    requires { (0 < m) × (m ≤ most_levels) × (4 ≤ n) × (n ≤ most_inputs) × (8 ≤ length levels.old) }
    ensures { (ls : List ℕ) → PrintedSpells m n words levels.old ls → PrintedSpells m n result levels.new (next_levels m ls) }
{
    let last = next_four(m, words.last);
    if last != ZEROS {
        return Words {
            first: words.first,
            middle: words.middle,
            last,
        };
    }
    next_levels(m, n - 4, levels);
    let front = words_of(levels, 8);
    Words {
        first: front.first,
        middle: front.middle,
        last,
    }
}
