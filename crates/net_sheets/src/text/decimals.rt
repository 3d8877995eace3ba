// Decimal values, without a needless leading zero.
ghost use Rattle.std.specs.Prelude.{[], ◌∷◌, ◌++◌};
ghost use Rattle.rules.specs.Text.{decimal};
ghost use Rattle.net_sheets.specs.Text.Put.{Put, PutRoom};

use crate::text::put::put;

// Writes k in decimal and the byte after it.
pub fn print_decimal(k: usize, after: u8, out: &mut [u8], at: usize) -> usize
    requires { PutRoom out.old at (decimal k ++ (after ∷ [])) }
    ensures { Put out.old at (decimal k ++ (after ∷ [])) out.new result }
{
    let digit = b'0' + (k % 10) as u8;
    if k < 10 {
        let p = put(digit, out, at);
        return put(after, out, p);
    }
    let p = print_decimal(k / 10, digit, out, at);
    put(after, out, p)
}
