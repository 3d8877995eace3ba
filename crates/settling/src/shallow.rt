// Settling and making of the shallow net. The sheet may be any bytes, and the buffers may have any length.
ghost use Rattle.std.specs.Prelude.{◌≡◌};
ghost use Rattle.rules.specs.Calls.ShallowSettling.{settle_shallow_call, make_shallow_call};
ghost use Rattle.answers.specs.Layered.{layered_made_of};

use crate::chosen;
use answers::layered::Layered;
use answers::refusal::Refusal;
use wirings::choice::Choice;

// Reads a net sheet, and writes its table, its marks and its shallow net sheet. The answer carries the count of layers.
pub fn settle_shallow(
    s: &[u8],
    cells: &mut [u8],
    marks: &mut [u8],
    out: &mut [u8],
) -> Result<Layered, Refusal>
    ensures { layered_made_of result cells.new marks.new out.new
        ≡ settle_shallow_call s.now cells.old marks.old out.old }
{
    chosen::settle_by(Choice::Shallow, s, cells, marks, out)
}

// Reads a table sheet, and writes its table, its marks and its shallow net sheet. The answer carries the count of layers.
pub fn make_shallow(
    s: &[u8],
    cells: &mut [u8],
    marks: &mut [u8],
    out: &mut [u8],
) -> Result<Layered, Refusal>
    ensures { layered_made_of result cells.new marks.new out.new
        ≡ make_shallow_call s.now cells.old marks.old out.old }
{
    chosen::make_by(Choice::Shallow, s, cells, marks, out)
}
