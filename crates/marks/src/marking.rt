// The marking call.
ghost use Rattle.std.specs.Prelude.{◌≡◌, ◌^◌, ◌≤◌, ◌<◌, length};
ghost use Rattle.rules.specs.Groups.Marks.{marks_length};
ghost use Rattle.rules.specs.Calls.Answers.{ink_in};
ghost use Rattle.rules.specs.Calls.Marking.{marking_call};
ghost use Rattle.cells.specs.Full.{FullCells};
ghost use Rattle.marks.specs.Marking.{Stored};
ghost use Rattle.marks.specs.Marked.{marked_of, marked_into};

use crate::all_groups::{FEW_GROUPS, FEW_INPUTS};
use crate::own::MOST_GROUPS;
use crate::{all_groups, packing};
use answers::refusal::{Kind, Refusal};
use cells::bare;

// Marks every group in an array for this many groups, and stores the marks.
fn store_from<const GROUPS: usize>(m: usize, n: usize, cells: &[u8], buffer: &mut [u8]) -> u8
    requires { (FullCells m n cells.now) × (marks_length n ≤ length buffer.old) × (2 ^ n ≤ GROUPS) × (GROUPS < 2 ^ 16) }
    ensures { Stored m n (ink_in cells.now) buffer.old result buffer.new }
{
    let mut marks = [0u8; GROUPS];
    let marked = all_groups::mark_and_store(m, n, cells, &mut marks, buffer);
    marked.mark
}

// Returns refusal 14, or stores all marks.
fn mark_into(m: usize, n: usize, cells: &[u8], buffer: &mut [u8]) -> Result<usize, Refusal>
    requires { FullCells m n cells.now }
    ensures { marked_of result buffer.new ≡ marked_into m n cells.now buffer.old }
{
    let need = packing::marks_length(n);
    if buffer.len() < need {
        return Err(Refusal {
            kind: Kind::MarksShort,
            place: need,
        });
    }
    let mark = if n <= FEW_INPUTS {
        store_from::<FEW_GROUPS>(m, n, cells, buffer)
    } else {
        store_from::<MOST_GROUPS>(m, n, cells, buffer)
    };
    Ok(mark as usize)
}

// Writes every group's mark and returns the whole group's mark. The caller may pass any arguments.
pub fn marking(m: usize, n: usize, cells: &[u8], marks: &mut [u8]) -> Result<usize, Refusal>
    ensures { marked_of result marks.new ≡ marking_call m n cells.now marks.old }
{
    bare::full_cells(m, n, cells)?;
    mark_into(m, n, cells, marks)
}
