// The marks of every group of a full table.
ghost use Rattle.std.specs.Prelude.{◌+◌, ◌^◌, ◌≤◌, ◌<◌, length};
ghost use Rattle.rules.specs.Groups.Marks.{marks_length};
ghost use Rattle.rules.specs.Calls.Answers.{ink_in};
ghost use Rattle.cells.specs.Full.{FullCells};
ghost use Rattle.marks.specs.Marking.{Marking, MarkedInto, IdleGroup};
ghost use Rattle.marks.specs.Fast.Below.{Lent};

use crate::fast::below;
use crate::own::MOST_GROUPS;
use crate::{own, packing};
use radix::limits::{MOST_CELLS, MOST_INPUTS, MOST_KEPT, MOST_LEVELS};
use radix::powers;

// The most inputs, groups and cells of a table for which small work arrays are enough.
pub const FEW_INPUTS: usize = 6;

pub const FEW_GROUPS: usize = 1 << FEW_INPUTS;

const FEW_KEPT: usize = FEW_GROUPS * MOST_LEVELS;

const FEW_CELLS: usize = 1024;

// The whole group's mark, and the group of the inputs that do not matter.
#[derive(Drop)]
pub struct AllMarked {
    pub mark: u8,
    pub idle: usize,
}

// Writes every group's mark to `marks` and returns the whole group's mark. The other arrays are for work. The whole group of a full table has as many
// classes as there are inks, so at most m.
fn mark_with(
    m: usize,
    n: usize,
    cells: &[u8],
    counts: &mut [u8],
    kept: &mut [u16],
    xs: &mut [u16],
    ys: &mut [u16],
    marks: &mut [u8],
) -> AllMarked
    requires { (FullCells m n cells.now) × (2 ^ n ≤ length marks.old)
        × (Lent m n (length counts.old) (length kept.old) (length xs.old) (length ys.old)) }
    ensures { (Marking m n (ink_in cells.now) result.mark marks.new) × (IdleGroup m n (ink_in cells.now) result.idle) }
{
    let mut weights = [0u16; MOST_INPUTS];
    let mut firsts = [0u16; MOST_LEVELS + 1];
    powers::weights(m, n, &mut weights);
    let idle = below::mark_below(
        m,
        n,
        cells,
        &weights,
        counts,
        kept,
        xs,
        ys,
        &mut firsts,
        marks,
    );
    let whole = powers::power(2, n) - 1;
    let mark = below::mark_without(marks, whole, idle);
    own::put_mark(marks, whole, mark);
    AllMarked { mark, idle }
}

// Does the same with arrays of these lengths.
fn mark_in<const GROUPS: usize, const KEPT: usize, const CELLS: usize>(
    m: usize,
    n: usize,
    cells: &[u8],
    marks: &mut [u8],
) -> AllMarked
    requires { (FullCells m n cells.now) × (2 ^ n ≤ length marks.old)
        × (Lent m n GROUPS KEPT CELLS CELLS) × (GROUPS + KEPT + CELLS < 2 ^ 16) }
    ensures { (Marking m n (ink_in cells.now) result.mark marks.new) × (IdleGroup m n (ink_in cells.now) result.idle) }
{
    let mut counts = [0u8; GROUPS];
    let mut kept = [0u16; KEPT];
    let mut xs = [0u16; CELLS];
    let mut ys = [0u16; CELLS];
    mark_with(m, n, cells, &mut counts, &mut kept, &mut xs, &mut ys, marks)
}

// Writes every group's mark to `marks` and returns the whole group's mark.
pub fn mark_all(m: usize, n: usize, cells: &[u8], marks: &mut [u8]) -> AllMarked
    requires { (FullCells m n cells.now) × (2 ^ n ≤ length marks.old) }
    ensures { (Marking m n (ink_in cells.now) result.mark marks.new) × (IdleGroup m n (ink_in cells.now) result.idle) }
{
    // Clearing large arrays takes longer than marking a small table.
    if n <= FEW_INPUTS && powers::power(m, n) <= FEW_CELLS {
        mark_in::<FEW_GROUPS, FEW_KEPT, FEW_CELLS>(m, n, cells, marks)
    } else {
        mark_in::<MOST_GROUPS, MOST_KEPT, MOST_CELLS>(m, n, cells, marks)
    }
}

// Does the same, and packs the marks into the caller's buffer.
pub fn mark_and_store(
    m: usize,
    n: usize,
    cells: &[u8],
    marks: &mut [u8],
    buffer: &mut [u8],
) -> AllMarked
    requires { (FullCells m n cells.now) × (2 ^ n ≤ length marks.old) × (marks_length n ≤ length buffer.old) }
    ensures { (MarkedInto m n (ink_in cells.now) buffer.old result.mark marks.new buffer.new)
        × (IdleGroup m n (ink_in cells.now) result.idle) }
{
    let marked = mark_all(m, n, cells, marks);
    packing::store(n, marks, buffer);
    marked
}
