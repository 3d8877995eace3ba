// Prints the new picture many rows at once: frames the picture, computes the net's value at every place, and copies the rows of these.
ghost use Rattle.std.specs.Prelude.{◌≡◌, ◌<◌, replicate};
ghost use Rattle.rules.specs.Calls.Answers.{written};
ghost use Rattle.glyphs.specs.Glyph.{GlyphReady, glyph_of};
ghost use Rattle.glyphs.specs.Strips.{StripReady, StripDone, HalvesReady};

use crate::frame::frame;
use crate::limits::{BORDER, FEW_GATES, FEW_SIDE, FEW_VALUES, FRAME_LINES, MOST_VALUES};
use crate::offsets::starts_of;
use crate::rows::print_rows;
use evaluation::values::values;
use nets::forms::Net;

// Prints `rows` rows of the new picture from row y on. The framed picture is at the front of `wires`.
fn print_strip(
    net: Net,
    width: usize,
    height: usize,
    y: usize,
    rows: usize,
    offsets: &[i8],
    wires: &mut [u8],
    out: &mut [u8],
)
    requires { StripReady net width height y rows offsets.now wires.old out.old }
    ensures { StripDone net width height y rows offsets.now wires.old wires.new out.old out.new }
{
    let span = width + BORDER;
    let starts = starts_of(net.inputs, offsets, span, y);
    let start = values(
        net,
        starts,
        (height + FRAME_LINES) * span,
        rows * span,
        wires,
    );
    print_rows(wires, start, width, rows, y * width, out);
}

// Prints the first `top` rows of the new picture, and then the others. `wires` is all zeros.
fn print_halves(
    net: Net,
    width: usize,
    height: usize,
    top: usize,
    picture: &[u8],
    offsets: &[i8],
    wires: &mut [u8],
    out: &mut [u8],
)
    requires { GlyphReady net width height picture.now offsets.now out.old × HalvesReady net width height top wires.old }
    ensures { out.new ≡ written out.old (glyph_of net width height picture.now offsets.now) }
{
    frame(picture, width, height, wires);
    print_strip(net, width, height, 0, top, offsets, wires, out);
    if top == height {
        return;
    }
    print_strip(net, width, height, top, height - top, offsets, wires, out);
}

// Does the same with `CELLS` cells to work in.
fn print_in<const CELLS: usize>(
    net: Net,
    width: usize,
    height: usize,
    top: usize,
    picture: &[u8],
    offsets: &[i8],
    out: &mut [u8],
)
    requires ready { GlyphReady net width height picture.now offsets.now out.old }
    requires room { HalvesReady net width height top (replicate CELLS 0) × (CELLS < 65536) }
    ensures { out.new ≡ written out.old (glyph_of net width height picture.now offsets.now) }
{
    let mut wires = [0u8; CELLS];
    print_halves(net, width, height, top, picture, offsets, &mut wires, out);
}

// Prints the new picture. A small one gets less room: clearing more takes longer than printing it. The values of few gates have room for all rows: a net of
// three levels or more has few gates, and `values` may compute its table, once.
pub fn print_glyph(
    net: Net,
    width: usize,
    height: usize,
    picture: &[u8],
    offsets: &[i8],
    out: &mut [u8],
)
    requires { GlyphReady net width height picture.now offsets.now out.old }
    ensures { out.new ≡ written out.old (glyph_of net width height picture.now offsets.now) }
{
    if width <= FEW_SIDE && height <= FEW_SIDE {
        return print_in::<FEW_VALUES>(net, width, height, height, picture, offsets, out);
    }
    let top = if net.gates <= FEW_GATES {
        height
    } else {
        height - height / 2
    };
    print_in::<MOST_VALUES>(net, width, height, top, picture, offsets, out);
}
