// Writes text into a buffer at a place. Each function returns the place after its text.
ghost use Rattle.std.specs.Prelude.{◌<◌, [], ◌∷◌, length};
ghost use Rattle.net_sheets.specs.Text.Put.{Put, PutRoom};

// Writes one byte.
pub fn put(b: u8, out: &mut [u8], at: usize) -> usize
    requires { at < length out.old }
    ensures { Put out.old at (b ∷ []) out.new result }
{
    out[at] = b;
    at + 1
}

// Writes all of t.
pub fn copy(t: &[u8], out: &mut [u8], at: usize) -> usize
    requires { PutRoom out.old at t.now }
    ensures { Put out.old at t.now out.new result }
{
    // With `copy_from_slice` the archive for C would need `memmove` from outside.
    for i in 0..t.len() {
        out[at + i] = t[i];
    }
    at + t.len()
}
