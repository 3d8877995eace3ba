// The printer of a net sheet.
ghost use Rattle.std.specs.Prelude.{ℕ, ◌+◌, ◌≤◌, ◌<◌, [], ◌∷◌, ◌++◌, map, length, get_or};
ghost use Rattle.rules.specs.Text.{digit_byte, space};
ghost use Rattle.rules.specs.Sheets.Printed.{printed_net};
ghost use Rattle.nets.specs.Forms.{net_in};
ghost use Rattle.net_sheets.specs.Text.Put.{Put, PutRoom, NetWrote};
ghost use Rattle.net_sheets.specs.Text.Names.{NamesInside};
ghost use Rattle.net_sheets.specs.Printer.Gates.{reference_in, GatesInside, printed_parts, printed_gates};

use crate::text::decimals::print_decimal;
use crate::text::header::{print_name, print_names_line, print_pair};
use crate::text::put::{copy, put};
use crate::text::wide::wide;
use nets::forms::{Header, Net};

// Writes a reference, which is an input's name or a gate's number, and a space.
fn print_wire(s: &[u8], h: Header, r: usize, out: &mut [u8], at: usize) -> usize
    requires { NamesInside s.now h × PutRoom out.old at (reference_in s.now h r ++ (space ∷ [])) }
    ensures { Put out.old at (reference_in s.now h r ++ (space ∷ [])) out.new result }
{
    let inputs = h.inputs;
    if r < inputs {
        return print_name(s, h, r, b' ', out, at);
    }
    print_decimal(r - inputs + 1, b' ', out, at)
}

// Writes a gate's digits.
fn print_digits(digits: &[u8], out: &mut [u8], at: usize) -> usize
    requires { PutRoom out.old at (map digit_byte digits.now) × ((k : ℕ) → k < length digits.now → get_or digits.now k 0 < 10) }
    ensures { Put out.old at (map digit_byte digits.now) out.new result }
{
    for (i, digit) in digits.iter().enumerate() {
        out[at + i] = b'0' + *digit;
    }
    at + digits.len()
}

// Writes the line of a gate with these references and digits.
fn print_gate(
    s: &[u8],
    h: Header,
    left: usize,
    right: usize,
    digits: &[u8],
    out: &mut [u8],
    at: usize,
) -> usize
    requires { NamesInside s.now h × ((k : ℕ) → k < length digits.now → get_or digits.now k 0 < 10)
        × PutRoom out.old at (printed_parts s.now h left right digits.now) }
    ensures { Put out.old at (printed_parts s.now h left right digits.now) out.new result }
{
    let p = print_wire(s, h, left, out, at);
    let p = print_wire(s, h, right, out, p);
    let p = print_digits(digits, out, p);
    put(b'\n', out, p)
}

// Writes the lines of all gates.
fn print_gates(s: &[u8], h: Header, net: Net, out: &mut [u8], at: usize) -> usize
    requires { NamesInside s.now h × GatesInside net × PutRoom out.old at (printed_gates s.now h net) }
    ensures { Put out.old at (printed_gates s.now h net) out.new result }
{
    let digits = net.digits;
    let mut p = at;
    for k in 0..net.gates {
        let size = net.levels * net.levels;
        let from = k * size;
        let end = from + size;
        p = print_gate(
            s,
            h,
            wide(net.left[k]),
            wide(net.right[k]),
            &digits[from..end],
            out,
            p,
        );
    }
    p
}

// Writes the net sheet of the header's names and the net to the front of `out`, and returns its length.
pub fn print_net(s: &[u8], h: Header, net: Net, out: &mut [u8]) -> usize
    requires { NamesInside s.now h × GatesInside net × (length (printed_net (net_in s.now h net)) ≤ length out.old) }
    ensures { NetWrote out.old (printed_net (net_in s.now h net)) out.new result }
{
    let levels = h.levels;
    let inputs = h.inputs;
    let p = print_pair(b"levels inputs\n", levels, inputs, out, 0);
    let p = print_names_line(s, h, out, p);
    let p = copy(b"left right table\n", out, p);
    print_gates(s, h, net, out, p)
}
