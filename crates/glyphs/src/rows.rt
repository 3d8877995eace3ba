// Copies the rows of the new picture from the net's values to the output.
ghost use Rattle.std.specs.Prelude.{◌≡◌};
ghost use Rattle.std.proofs.lemmas.List.Edits.{sets};
ghost use Rattle.glyphs.specs.Rows.{RowsReady, rows_from};

use crate::limits::BORDER;
use net_sheets::text::put::copy;

// Writes the first `width` cells of each of `rows` rows, one after the other, from `first` on. In `wires`, the first row begins at `start`.
pub fn print_rows(
    wires: &[u8],
    start: usize,
    width: usize,
    rows: usize,
    first: usize,
    out: &mut [u8],
)
    requires { RowsReady wires.now start width rows first out.old }
    ensures { out.new ≡ sets out.old first (rows_from wires.now start width rows) }
{
    for y in 0..rows {
        let from = start + y * (width + BORDER);
        copy(&wires[from..from + width], out, first + y * width);
    }
}
