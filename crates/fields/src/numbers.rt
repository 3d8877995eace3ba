// Decimal values.
ghost use Rattle.std.specs.Prelude.{◌≡◌, ◌<◌};
ghost use Rattle.rules.specs.Lists.{same};
ghost use Rattle.rules.specs.Text.{decimal};

use crate::same::same_bytes;

// Tests whether w is the decimal value of n.
pub fn is_decimal(w: &[u8], n: usize) -> bool
    requires { n < 100 }
    ensures { result ≡ same w.now (decimal n) }
{
    let digits = [b'0' + (n / 10) as u8, b'0' + (n % 10) as u8];
    if n < 10 {
        return same_bytes(w, &digits[1..]);
    }
    same_bytes(w, &digits)
}
