// Whether a picture has allowed sides and cells.
ghost use Rattle.std.specs.Prelude.{◌≡◌, ◌≤◌};
ghost use Rattle.rules.specs.Limits.{most_levels};
ghost use Rattle.rules.specs.Calls.Glyphs.{side_fits, picture_fits};

use crate::limits::MOST_SIDE;
use cells::bound::first_at_least;

// Returns whether a picture may have this many cells on a side.
fn side_fits(side: usize) -> bool
    ensures { result ≡ side_fits side }
{
    (1..=MOST_SIDE).contains(&side)
}

// Returns whether a picture has allowed sides, one cell for each place, and levels below m. Checks the sides before it multiplies them.
pub fn picture_fits(m: usize, width: usize, height: usize, picture: &[u8]) -> bool
    requires { m ≤ most_levels }
    ensures { result ≡ picture_fits m width height picture.now }
{
    if !side_fits(width) || !side_fits(height) {
        return false;
    }
    picture.len() == width * height && first_at_least(m, picture) == picture.len()
}
