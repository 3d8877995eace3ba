// A turn of a gate lister whose caller keeps the position, for C.
ghost use Rattle.std.specs.Prelude.{◌≡◌};
ghost use Rattle.capi.specs.Lister.{line_from};

use crate::numbers::line::SitgurpLine;
use lister::places::{line_end, past_feed};

// Returns the line that starts at byte `at`, and the position of the line after it. Reads no byte before `at`.
#[unsafe(no_mangle)]
pub extern "C" fn sitgurp_lister_next(sheet: &[u8], at: usize) -> SitgurpLine
    ensures { result ≡ line_from sheet.now at }
{
    let end = line_end(sheet, at);
    let next = past_feed(sheet, end);
    if sheet.len() <= at {
        return SitgurpLine {
            kind: 0,
            start: 0,
            length: 0,
            next,
        };
    }
    SitgurpLine {
        kind: 1,
        start: at,
        length: end - at,
        next,
    }
}
