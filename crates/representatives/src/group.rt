// What is recorded for a group, from what is recorded for the groups below it.
ghost use Rattle.std.specs.Prelude.{ℕ, ◌^◌, ◌≤◌, ◌<◌};
ghost use Rattle.rules.specs.Calls.Answers.{ink_in};
ghost use Rattle.radix.specs.Widths.{groups_end};
ghost use Rattle.representatives.specs.Steps.{Work, Near, NextStep, RepStepped};

use crate::{classifying, counting, extension, source};

// Returns the power of two above g: twice `past` if g equals `past`, else `past`.
pub fn past_of(g: usize, past: usize) -> usize
    requires { past ≤ groups_end }
    ensures { (n : ℕ) → g < 2 ^ n → Near n g past → (Near n g result) × (g < result) }
{
    if g == past {
        return past + past;
    }
    past
}

// Records assignments that cover g and returns their number, or 0 if g has more than m classes. No member of g is in `idle`, a group of idle inputs.
pub fn keep_group(
    m: usize,
    n: usize,
    cells: &[u8],
    weights: &[u16],
    idle: usize,
    g: usize,
    past: usize,
    counts: &[u8],
    kept: &mut [u16],
    xs: &mut [u16],
    ys: &mut [u16],
    firsts: &mut [u16],
) -> usize
    requires { (Work m n cells.now weights.now counts.now kept.old xs.old ys.old firsts.old)
        × (NextStep m n (ink_in cells.now) counts.now kept.old idle g past) }
    ensures { RepStepped m n (ink_in cells.now) counts.now kept.old g result kept.new }
{
    if g == 0 {
        kept[0] = 0;
        return 1;
    }
    let bit = source::source(m, counts, kept, g);
    let h = g - bit;
    if source::passes_on(m, counts, kept, h, bit) {
        let s = kept[h * m];
        let b = kept[h * m + 1];
        classifying::put_many(kept, g * m, s, b);
        return 0;
    }
    let from = extension::few_inside(m, counts, kept, h);
    counting::count_group(
        m, n, cells, weights, idle, g, past, from, counts, kept, xs, ys, firsts,
    )
}
