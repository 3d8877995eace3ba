// The names of a header. They stay in the sheet: a header stores where each name begins and how long it is.
ghost use Rattle.std.specs.Prelude.{◌≡◌, ◌<◌};
ghost use Rattle.rules.specs.Limits.{most_inputs};
ghost use Rattle.nets.specs.Forms.{name_in, NameHeld};

use crate::forms::Header;

// Returns the name of input i, as a part of the sheet.
pub fn name_of(s: &[u8], header: Header, i: usize) -> &[u8]
    requires { (i < most_inputs) × NameHeld s.now header i }
    ensures { result.now ≡ name_in s.now header i }
{
    let start = header.starts[i];
    let end = start + header.lens[i] as usize;
    &s[start..end]
}
