// The names of line 3. They stay in the sheet: a header stores where each name begins and how long it is.
ghost use Rattle.std.specs.Prelude.{◌≡◌, map, ◌≤◌, ◌<◌};
ghost use Rattle.rules.specs.Lists.{range, all, any, same};
ghost use Rattle.rules.specs.Limits.{most_inputs};
ghost use Rattle.rules.specs.Sheets.Sheets.{is_letter, is_name};
ghost use Rattle.nets.specs.Forms.{name_in, NamesHeld};
ghost use Rattle.fields.specs.Header.Names.{is_name_byte, is_new};

use crate::same::same_bytes;
use nets::forms::Header;
use radix::limits;

// Tests whether b is a lowercase letter.
pub fn is_letter(b: u8) -> bool
    ensures { result ≡ is_letter b }
{
    if b < b'a' {
        return false;
    }
    b <= b'z'
}

// Tests whether b is a lowercase letter or a digit.
pub fn is_name_byte(b: u8) -> bool
    ensures { result ≡ is_name_byte b }
{
    if is_letter(b) {
        return true;
    }
    if b < b'0' {
        return false;
    }
    b <= b'9'
}

// Tests whether all bytes of w are lowercase letters or digits.
pub fn are_name_bytes(w: &[u8]) -> bool
    ensures { result ≡ all is_name_byte w.now }
{
    w.iter().all(|b| is_name_byte(*b))
}

// Tests whether w is a name.
pub fn is_name(w: &[u8]) -> bool
    ensures { result ≡ is_name w.now }
{
    if limits::MOST_NAME_BYTES < w.len() {
        return false;
    }
    if w.len() == 0 {
        return false;
    }
    if !is_letter(w[0]) {
        return false;
    }
    if !are_name_bytes(w) {
        return false;
    }
    !same_bytes(w, b"ink")
}

// Tests whether w is the name of one of the first `count` inputs.
pub fn is_repeated(s: &[u8], header: Header, count: usize, w: &[u8]) -> bool
    requires { (count ≤ most_inputs) × NamesHeld s.now header count }
    ensures { result ≡ any (same w.now) (map (name_in s.now header) (range 0 count)) }
{
    // The header is read in place: `name_of` takes it by value, and with a copy for each pair of names a call on 12 inputs takes up to a third more
    // instructions.
    for i in 0..count {
        let start = header.starts[i];
        let end = start + header.lens[i] as usize;
        if same_bytes(w, &s[start..end]) {
            return true;
        }
    }
    false
}

// Tests whether w is a name that none of the first `count` inputs has.
pub fn is_new_name(s: &[u8], header: Header, count: usize, w: &[u8]) -> bool
    requires { (count ≤ most_inputs) × NamesHeld s.now header count }
    ensures { result ≡ is_new (map (name_in s.now header) (range 0 count)) w.now }
{
    if is_name(w) {
        return !is_repeated(s, header, count, w);
    }
    false
}
