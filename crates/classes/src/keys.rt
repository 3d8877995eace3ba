// The kept assignments by key. A key is a number made of an assignment's first inks. Alike assignments have the same key, so only kept ones with the
// same key are compared. They form a chain, newest first: a head stores 1 + its index, a link 1 + the next index, and 0 ends the chain.
ghost use Rattle.std.specs.Prelude.{◌≡◌, ℕ, ◌≤◌, ◌<◌, length, get_or};
ghost use Rattle.rules.specs.Limits.{most_levels};
ghost use Rattle.rules.specs.Groups.Groups.{alike_over};
ghost use Rattle.rules.specs.Calls.Answers.{ink_in};
ghost use Rattle.classes.specs.Chains.{Searched};
ghost use Rattle.classes.specs.Keys.{key_of};
ghost use Rattle.classes.specs.Within.{Within};

use crate::alike;

// Every key is below this.
pub const KEYS: usize = 256;

// The number of columns of a key if many classes are expected.
pub const MOST_COLUMNS: usize = 8;

// Returns how many of `other` columns a key uses, at most `columns`. From `min` the compiler doesn't learn that this is at most 8, so it would not unroll the
// loop of `key`; the call for a group of 5 inputs of 5 levels then takes 12 % more instructions.
pub fn key_width(columns: usize, other: usize) -> usize
    ensures { (result ≤ other) × (result ≤ columns) }
{
    if other < columns { other } else { columns }
}

// Returns the key of p: its inks at the first `width` columns as the digits of a number in base m, reduced below 256.
pub fn key(m: usize, cells: &[u8], ys: &[u16], width: usize, p: usize) -> usize
    requires { (m ≤ most_levels) × (width ≤ length ys.now) × (Within (length cells.now) ys.now p) }
    ensures { result ≡ key_of m (ink_in cells.now) ys.now width p }
{
    let mut made: usize = 0;
    for &y in &ys[..width] {
        made = (made * m + cells[p + y as usize] as usize) % KEYS;
    }
    made
}

// Returns whether p is alike to one of `firsts` in the chain that starts at `head`.
pub fn in_chain(
    cells: &[u8],
    ys: &[u16],
    firsts: &[u16],
    links: &[u16],
    head: usize,
    p: usize,
) -> bool
    requires { (head ≤ length firsts.now) × (head ≤ length links.now) × (Within (length cells.now) ys.now p)
        × ((j : ℕ) → j < head → Within (length cells.now) ys.now (get_or firsts.now j 0))
        × ((j : ℕ) → j < head → get_or links.now j 0 ≤ j) }
    ensures { Searched (alike_over (ink_in cells.now) ys.now p) firsts.now links.now head result }
{
    let mut at = head;
    while 0 < at {
        let i = at - 1;
        if alike::alike(cells, ys, p, firsts[i] as usize) {
            return true;
        }
        at = links[i] as usize;
    }
    false
}
