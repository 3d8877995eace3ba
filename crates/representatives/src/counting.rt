// The rows and the columns for the count of a group's classes, from what is recorded for the groups below it.
ghost use Rattle.std.specs.Prelude.{◌<◌, get_or};
ghost use Rattle.rules.specs.Calls.Answers.{ink_in};
ghost use Rattle.radix.specs.Parts.{PartOf};
ghost use Rattle.representatives.specs.Steps.{Work, NextStep, RepStepped};

use crate::{classifying, extension};
use radix::members;

// Counts the classes of g. Its rows come from the group `from` inside it. The heads of its columns come from what is recorded for the other inputs
// below `past` that are not in `idle`. The inputs from `past` on have the smallest weights: all their assignments form a run.
pub fn count_group(
    m: usize,
    n: usize,
    cells: &[u8],
    weights: &[u16],
    idle: usize,
    g: usize,
    past: usize,
    from: usize,
    counts: &[u8],
    kept: &mut [u16],
    xs: &mut [u16],
    ys: &mut [u16],
    firsts: &mut [u16],
) -> usize
    requires { (Work m n cells.now weights.now counts.now kept.old xs.old ys.old firsts.old)
        × (NextStep m n (ink_in cells.now) counts.now kept.old idle g past) × (0 < g) × (from < g) × (PartOf from g) × (0 < get_or counts.now from 0) }
    ensures { RepStepped m n (ink_in cells.now) counts.now kept.old g result kept.new }
{
    let rows = extension::cover(m, n, weights, counts, kept, from, g, xs);
    let before = members::without(past - 1 - g, idle);
    let below = extension::few_inside(m, counts, kept, before);
    let heads = extension::cover(m, n, weights, counts, kept, below, before, ys);
    let run = weights[members::first_of(past) - 1] as usize;
    classifying::classify(
        m,
        n,
        cells,
        &xs[0..rows],
        &ys[0..heads],
        run,
        g,
        from,
        kept,
        firsts,
    )
}
