// The framed picture: the old picture with a border of zeros, so that every cell that an offset reaches exists.
ghost use Rattle.std.specs.Prelude.{◌≡◌, ◌*◌, ◌≤◌, length};
ghost use Rattle.laws.specs.Calls.Glyphs.{IsSide};
ghost use Rattle.glyphs.specs.Frames.{frame_size, GlyphEmpty, GlyphFramed};

use crate::limits::{BORDER, MOST_OFFSET};
use net_sheets::text::put::copy;

// Copies the picture's rows into the frame, which is all zeros.
pub fn frame(picture: &[u8], width: usize, height: usize, wires: &mut [u8])
    requires { IsSide width × IsSide height × (length picture.now ≡ width * height) × GlyphEmpty wires.old
        × (frame_size width height ≤ length wires.old) }
    ensures { GlyphFramed width height picture.now wires.new }
{
    let span = width + BORDER;
    for y in 0..height {
        let from = y * width;
        copy(
            &picture[from..from + width],
            wires,
            (y + MOST_OFFSET) * span + MOST_OFFSET,
        );
    }
}
