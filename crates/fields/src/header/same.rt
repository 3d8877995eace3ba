// Compares the headers of two sheets. Their names stay in the sheets.
ghost use Rattle.std.specs.Prelude.{◌≡◌, map, ◌≤◌};
ghost use Rattle.rules.specs.Lists.{range};
ghost use Rattle.rules.specs.Limits.{most_inputs};
ghost use Rattle.rules.specs.Calls.Checking.{same_names_of, same_header};
ghost use Rattle.nets.specs.Forms.{name_in, header_of, NamesHeld};
ghost use Rattle.fields.specs.Header.FirstLines.{HeaderHeld};

use crate::same::same_bytes;
use nets::forms::Header;
use nets::names::name_of;

// Tests whether the first n names of both headers are equal.
fn same_names(s: &[u8], h: Header, t: &[u8], k: Header, n: usize) -> bool
    requires { (n ≤ most_inputs) × NamesHeld s.now h n × NamesHeld t.now k n }
    ensures { result ≡ same_names_of (map (name_in s.now h) (range 0 n)) (map (name_in t.now k) (range 0 n)) }
{
    for i in 0..n {
        if !same_bytes(name_of(s, h, i), name_of(t, k, i)) {
            return false;
        }
    }
    true
}

// Tests whether two sheets have the same levels, inputs and names.
pub fn same_header(s: &[u8], h: Header, t: &[u8], k: Header) -> bool
    requires { HeaderHeld s.now h × HeaderHeld t.now k }
    ensures { result ≡ same_header (header_of s.now h) (header_of t.now k) }
{
    if h.levels != k.levels {
        return false;
    }
    if h.inputs != k.inputs {
        return false;
    }
    same_names(s, h, t, k, h.inputs)
}
