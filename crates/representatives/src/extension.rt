// Representatives of a group, made from those of a group inside it.
ghost use Rattle.std.specs.Prelude.{◌≡◌, ℕ, ◌+◌, ◌*◌, ◌≤◌, ◌<◌, length, get_or};
ghost use Rattle.radix.specs.Parts.{PartOf};
ghost use Rattle.representatives.specs.Copies.{Copied};
ghost use Rattle.representatives.specs.Extension.{Covering, Covered};
ghost use Rattle.representatives.specs.Known.{Base};
ghost use Rattle.representatives.specs.Spreads.{Spreading, Spread};

use radix::{members, offsets};

// Copies from[a .. a + count] to to[b ..].
pub fn copy(from: &[u16], a: usize, to: &mut [u16], b: usize, count: usize)
    requires { (a + count ≤ length from.now) × (b + count ≤ length to.old) }
    ensures { Copied from.now a to.old b count to.new }
{
    // The copies are short: with `copy_from_slice` marking takes 4% longer.
    for k in 0..count {
        to[b + k] = from[a + k];
    }
}

// Extends the first `len` of `out`, representatives of group `from`, to the larger group `to`: every new member takes every level. Returns their number.
pub fn spread(
    m: usize,
    n: usize,
    weights: &[u16],
    from: usize,
    to: usize,
    out: &mut [u16],
    len: usize,
) -> usize
    requires { Spreading m n weights.now from to out.old len }
    ensures { Spread m n from to out.old len out.new result }
{
    let mut rest = to - from;
    let mut count = len;
    while 0 < rest {
        let i = members::first_of(rest);
        count = offsets::widen(out, count, weights[i], m);
        rest = members::without_first(rest);
    }
    count
}

// Returns h if it has at most m classes, else the subgroup with at most m classes that is recorded for it.
pub fn few_inside(m: usize, counts: &[u8], kept: &[u16], h: usize) -> usize
    requires { (h < length counts.now) × (h * m + 1 < length kept.now) × (get_or counts.now h 0 ≡ 0 → Base m counts.now kept.now h) }
    ensures { (PartOf result h) × (0 < get_or counts.now result 0) }
{
    if counts[h] == 0 {
        return kept[h * m + 1] as usize;
    }
    h
}

// Writes representatives of group `to` to the front of `out`, made from those of group `from` inside it, and returns how many there are.
pub fn cover(
    m: usize,
    n: usize,
    weights: &[u16],
    counts: &[u8],
    kept: &[u16],
    from: usize,
    to: usize,
    out: &mut [u16],
) -> usize
    requires { Covering m n weights.now counts.now kept.now from to out.old }
    ensures { Covered m n counts.now kept.now from to out.new result }
{
    let count = counts[from] as usize;
    copy(kept, from * m, out, 0, count);
    spread(m, n, weights, from, to, out, count)
}
