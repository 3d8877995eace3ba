// The count of a table sheet's trees. The caller may pass any sheet, and buffers of any length.
ghost use Rattle.std.specs.Prelude.{◌≡◌};
ghost use Rattle.rules.specs.Calls.FamilyCalls.{family_count_call};
ghost use Rattle.families.specs.Outcomes.{counted_of};

use crate::marked;
use answers::refusal::Refusal;
use marks::own;
use radix::limits;
use settling::input::read_input;

// Reads a table sheet, writes its table and its marks, and returns the count of its trees.
pub fn family_count(s: &[u8], cells: &mut [u8], marks: &mut [u8]) -> Result<usize, Refusal>
    ensures { counted_of result cells.new marks.new ≡ family_count_call s.now cells.old marks.old }
{
    let mut inks = [0u8; limits::MOST_CELLS];
    let input = read_input(s, &mut inks, cells, marks)?;
    let mut own = [0u8; own::MOST_GROUPS];
    let mut counts = [0u64; own::MOST_GROUPS];
    let counted = marked::count_marked(
        input.header.levels,
        input.header.inputs,
        &inks[0..input.count],
        cells,
        &mut own,
        marks,
        &mut counts,
    );
    Ok(counted.trees as usize)
}
