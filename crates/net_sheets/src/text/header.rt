// The first three lines of a sheet.
ghost use Rattle.std.specs.Prelude.{◌≤◌, ◌<◌, [], ◌∷◌, ◌++◌};
ghost use Rattle.rules.specs.Text.{decimal};
ghost use Rattle.rules.specs.Sheets.Printed.{line};
ghost use Rattle.nets.specs.Forms.{name_in, names_in};
ghost use Rattle.net_sheets.specs.Text.Put.{Put, PutRoom};
ghost use Rattle.net_sheets.specs.Text.Lines.{spaced_from};
ghost use Rattle.net_sheets.specs.Text.Names.{NamesInside};

use crate::text::decimals::print_decimal;
use crate::text::put::{copy, put};
use nets::forms::Header;
use nets::names::name_of;

// Writes a line, and then a line of two decimal values.
pub fn print_pair(head: &[u8], a: usize, b: usize, out: &mut [u8], at: usize) -> usize
    requires { PutRoom out.old at (head.now ++ line (decimal a ∷ decimal b ∷ [])) }
    ensures { Put out.old at (head.now ++ line (decimal a ∷ decimal b ∷ [])) out.new result }
{
    let p = copy(head, out, at);
    let p = print_decimal(a, b' ', out, p);
    print_decimal(b, b'\n', out, p)
}

// Writes name i and the byte after it.
pub fn print_name(s: &[u8], h: Header, i: usize, after: u8, out: &mut [u8], at: usize) -> usize
    requires { NamesInside s.now h × (i < h.inputs) × PutRoom out.old at (name_in s.now h i ++ (after ∷ [])) }
    ensures { Put out.old at (name_in s.now h i ++ (after ∷ [])) out.new result }
{
    let p = copy(name_of(s, h, i), out, at);
    put(after, out, p)
}

// Writes the first `count` names, each followed by a space.
pub fn print_names(s: &[u8], h: Header, count: usize, out: &mut [u8], at: usize) -> usize
    requires { NamesInside s.now h × (count ≤ h.inputs) × PutRoom out.old at (spaced_from (name_in s.now h) 0 count) }
    ensures { Put out.old at (spaced_from (name_in s.now h) 0 count) out.new result }
{
    let mut p = at;
    for i in 0..count {
        p = print_name(s, h, i, b' ', out, p);
    }
    p
}

// Writes the line of all names.
pub fn print_names_line(s: &[u8], h: Header, out: &mut [u8], at: usize) -> usize
    requires { NamesInside s.now h × PutRoom out.old at (line (names_in s.now h)) }
    ensures { Put out.old at (line (names_in s.now h)) out.new result }
{
    let last = h.inputs - 1;
    let p = print_names(s, h, last, out, at);
    print_name(s, h, last, b'\n', out, p)
}
