// A gate's table field.
ghost use Rattle.std.specs.Prelude.{◌≡◌, ◌+◌, ◌*◌, ◌≤◌, length};
ghost use Rattle.nets.specs.Room.{most_digits};
ghost use Rattle.std.proofs.Math.Seq.{paste};
ghost use Rattle.rules.specs.Limits.{most_levels};
ghost use Rattle.net_sheets.specs.Reader.Digits.{DigitsRead, is_table, are_digits, digits_at};

use answers::refusal::{Kind, Refusal};
use fields::ends::{after_field, judged};
use fields::runs::{NEWLINE, ZERO, field_at};
use fields::steps::Field;
use radix::limits::MOST_DIGITS;

// Tests whether w is m·m digits below m.
pub fn is_table(w: &[u8], m: usize) -> bool
    requires { m ≤ most_levels }
    ensures { result ≡ is_table m w.now }
{
    if w.len() != m * m {
        return false;
    }
    let end = ZERO + m;
    w.iter().all(|b| ZERO <= *b as usize && (*b as usize) < end)
}

// Reads the table field of a gate; an accepting step returns its length.
pub fn digits_field(s: &[u8], at: usize, m: usize) -> Result<Field, Refusal>
    requires { m ≤ most_levels }
    ensures { DigitsRead s.now at m result }
{
    let w = field_at(s, at);
    let verdict = judged(is_table(w, m), w.len(), Kind::Digits);
    after_field(s, at, w, verdict, NEWLINE)
}

// Copies `count` digits from the sheet, starting at `at`.
pub fn copy_digits(s: &[u8], at: usize, count: usize, digits: &mut [u8; MOST_DIGITS], from: usize)
    requires { (at + count ≤ length s.now) × (from + count ≤ most_digits) × (length digits.old ≡ most_digits) × are_digits s.now at count }
    ensures { digits.new ≡ paste digits.old from (digits_at s.now at count) count }
{
    for i in 0..count {
        digits[from + i] = s[at + i] - b'0';
    }
}
