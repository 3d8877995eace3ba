// Glyphs for C.
ghost use Rattle.rules.specs.Calls.Glyphs.{glyph_call};
ghost use Rattle.capi.specs.WriteTable.{FlatWritten};

use crate::numbers::flat::SitgurpAnswer;

// Writes the glyph that a net sheet prints from a picture. Returns the number of its cells.
#[unsafe(no_mangle)]
pub extern "C" fn sitgurp_glyph(
    sheet: &[u8],
    width: usize,
    height: usize,
    picture: &[u8],
    offsets: &[i8],
    out: &mut [u8],
) -> SitgurpAnswer
    ensures { FlatWritten (glyph_call sheet.now width height picture.now offsets.now out.old) result
        out.new }
{
    SitgurpAnswer::from(glyphs::call::glyph(sheet, width, height, picture, offsets, out))
}
