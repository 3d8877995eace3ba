// The glyph call.
ghost use Rattle.std.specs.Prelude.{◌≡◌};
ghost use Rattle.rules.specs.Calls.Glyphs.{glyph_call};
ghost use Rattle.accepted.specs.Taken.{NetTaken};
ghost use Rattle.glyphs.specs.Calls.{written_of};

use crate::offsets::offsets_fit;
use crate::picture::picture_fits;
use crate::print::print_glyph;
use answers::refusal::{Kind, Refusal};
use net_sheets::reader::net::read_net;
use nets::forms::{Header, Net};

// Returns refusal 24, 25 or 15, in this order, or prints the glyph of an accepted sheet's net and returns its number of cells.
fn print_accepted(
    sheet: &[u8],
    header: Header,
    net: Net,
    width: usize,
    height: usize,
    picture: &[u8],
    offsets: &[i8],
    out: &mut [u8],
) -> Result<usize, Refusal>
    requires { NetTaken sheet.now header net }
    ensures { written_of result out.new ≡ glyph_call sheet.now width height picture.now offsets.now
        out.old }
{
    if !picture_fits(net.levels, width, height, picture) {
        return Err(Refusal {
            kind: Kind::Picture,
            place: 0,
        });
    }
    if !offsets_fit(net.inputs, offsets) {
        return Err(Refusal {
            kind: Kind::Offsets,
            place: 0,
        });
    }
    let need = width * height;
    if out.len() < need {
        return Err(Refusal {
            kind: Kind::OutputShort,
            place: need,
        });
    }
    print_glyph(net, width, height, picture, offsets, out);
    Ok(need)
}

// Writes the glyph that a net sheet prints from a picture of `width` times `height` cells to the front of `out`, and returns how many cells it has.
// Each input has an offset across and one down for the cell that it reads. The caller may pass any bytes and numbers.
pub fn glyph(
    sheet: &[u8],
    width: usize,
    height: usize,
    picture: &[u8],
    offsets: &[i8],
    out: &mut [u8],
) -> Result<usize, Refusal>
    ensures { written_of result out.new ≡ glyph_call sheet.now width height picture.now offsets.now
        out.old }
{
    let read = read_net(sheet)?;
    print_accepted(
        sheet,
        read.header,
        read.net,
        width,
        height,
        picture,
        offsets,
        out,
    )
}
