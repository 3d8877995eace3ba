// Reads the rows that have exactly the expected bytes, m * m at a time: in a block the last two levels count up from 0, and the levels before them stay.
ghost use Rattle.std.specs.Prelude.{[], ◌∷◌, ◌++◌, ◌+◌, ◌*◌, ◌≤◌, ◌<◌, length, take};
ghost use Rattle.table_reader.specs.Fast.Words.{WordsOf};
ghost use Rattle.table_reader.specs.Fast.Due.{AreDigits, row_bytes};
ghost use Rattle.table_reader.specs.Fast.Block.{BlockStarts, BlockTried};
ghost use Rattle.table_reader.specs.Fast.Blocks.{RowsStart};
ghost use Rattle.table_reader.specs.Fast.Rows.{InRows};

use crate::fast::due_row::due_ink;
use crate::fast::words::{Words, words_of};
use radix::levels::next_levels;
use radix::powers::power;

// How many rows were read, and where the next one begins.
#[derive(Drop)]
pub struct Taken {
    pub rows: usize,
    pub place: usize,
}

// Tests whether the m rows of line q, which starts at `at`, all have the expected bytes, and puts their inks in `cells`. The line's rows share the
// first `front` levels and the level `before`.
fn due_line(
    s: &[u8],
    at: usize,
    levels: &[u8],
    words: Words,
    front: usize,
    before: usize,
    m: usize,
    q: usize,
    cells: &mut [u8],
) -> bool
    requires { BlockStarts m front (front + 1) q levels.now (take front levels.now ++ (before ∷ [])) cells.old × AreDigits levels.now front
        × (before < 10) × WordsOf levels.now front words × (at + m * row_bytes front ≤ length s.now) }
    ensures { BlockTried s.now at m front (q * m) m (at + m * row_bytes front) cells.old cells.new result }
{
    let row = 2 * front + 6;
    let mut place = at;
    for l in 0..m {
        let Some(ink) = due_ink(s, place, levels, words, front, before, l, m) else {
            return false;
        };
        cells[q * m + l] = ink as u8;
        place += row;
    }
    true
}

// Tests whether the m lines of block q, which starts at `at`, all have the expected bytes, and puts their inks in `cells`.
fn due_block(
    s: &[u8],
    at: usize,
    levels: &[u8],
    front: usize,
    m: usize,
    q: usize,
    cells: &mut [u8],
) -> bool
    requires { BlockStarts m front front q levels.now (take front levels.now) cells.old }
    ensures { BlockTried s.now at m front (q * m * m) (m * m) (at + m * (m * row_bytes front)) cells.old cells.new result }
{
    let line = m * (2 * front + 6);
    if s.len() < at {
        return false;
    }
    if s.len() - at < m * line {
        return false;
    }
    let words = words_of(levels, front);
    let mut place = at;
    for l in 0..m {
        if !due_line(s, place, levels, words, front, l, m, q * m + l, cells) {
            return false;
        }
        place += line;
    }
    true
}

// Reads as many blocks with the expected bytes as there are, starting with the row of index 0 at `at`. Their inks go to the front of `cells`, and
// `levels` changes from the levels of index 0 to those of the next row.
pub fn due_rows(
    s: &[u8],
    at: usize,
    m: usize,
    n: usize,
    levels: &mut [u8],
    cells: &mut [u8],
) -> Taken
    requires { RowsStart m n levels.old cells.old }
    ensures { InRows s.now at m n cells.new levels.new result.place result.rows }
{
    let front = n - 2;
    let blocks = power(m, front);
    let bytes = m * (m * (2 * front + 6));
    let mut taken = Taken { rows: 0, place: at };
    for q in 0..blocks {
        if !due_block(s, taken.place, levels, front, m, q, cells) {
            return taken;
        }
        next_levels(m, front, levels);
        taken.rows += m * m;
        taken.place += bytes;
    }
    taken
}
