// Counts the classes of a group among rows that cover it, and records them.
ghost use Rattle.std.specs.Prelude.{◌≡◌, ◌+◌, ◌<◌, length, set};
ghost use Rattle.rules.specs.Calls.Answers.{ink_in};
ghost use Rattle.representatives.specs.Columns.{columns_of};
ghost use Rattle.representatives.specs.Steps.{Judging, RepJudged};

use crate::{extension, first_rows, witnesses};

// Records that a group has too many classes: the inputs s at which its witness columns agree, and a group b inside it that has few classes.
pub fn put_many(kept: &mut [u16], at: usize, s: u16, b: u16)
    requires { at + 1 < length kept.old }
    ensures { kept.new ≡ set (set kept.old at s) (at + 1) b }
{
    kept[at] = s;
    kept[at + 1] = b;
}

// Counts the classes of g among the rows xs, which the columns of the heads ys and the run distinguish. Records them and returns their number, or 0
// if there are too many. `from` is a group inside g that has few classes.
pub fn classify(
    m: usize,
    n: usize,
    cells: &[u8],
    xs: &[u16],
    ys: &[u16],
    run: usize,
    g: usize,
    from: usize,
    kept: &mut [u16],
    firsts: &mut [u16],
) -> usize
    requires { Judging m n cells.now xs.now (columns_of run ys.now) g from kept.old (length firsts.old) }
    ensures { RepJudged m n (ink_in cells.now) g from kept.old result kept.new }
{
    let count = first_rows::row_firsts(cells, xs, ys, run, m, firsts);
    if m < count {
        let others = (1 << n) - 1 - g;
        let s = witnesses::agreeing_in_all(m, n, cells, ys, run, firsts, others);
        put_many(kept, g * m, s as u16, from as u16);
        return 0;
    }
    extension::copy(firsts, 0, kept, g * m, count);
    count
}
