// The offsets of the inputs: two numbers for each, across and down.
ghost use Rattle.std.specs.Prelude.{◌≡◌, ℕ, ◌≤◌, ◌*◌, ◌<◌, get_or, nat_abs};
ghost use Rattle.rules.specs.Limits.{most_inputs};
ghost use Rattle.rules.specs.Calls.Glyphs.{most_side, most_offset, offsets_fit};
ghost use Rattle.laws.specs.Calls.Glyphs.{AreOffsets};
ghost use Rattle.glyphs.specs.Offsets.{most_span, reach, all_near, start_of};

use crate::limits::MOST_OFFSET;
use nets::forms::MOST_WIRES;

// Returns a near offset plus the largest one, so it is at least 0.
fn reach_of(offset: i8) -> usize
    requires { nat_abs offset ≤ most_offset }
    ensures is { result ≡ reach offset }
    ensures small { result ≤ 2 * most_offset }
{
    (offset + MOST_OFFSET as i8) as usize
}

// Returns whether every offset is near.
fn all_near(offsets: &[i8]) -> bool
    ensures { result ≡ all_near offsets.now }
{
    offsets
        .iter()
        .all(|offset| offset.unsigned_abs() as usize <= MOST_OFFSET)
}

// Returns whether these are the offsets of n inputs.
pub fn offsets_fit(n: usize, offsets: &[i8]) -> bool
    requires { n ≤ most_inputs }
    ensures { result ≡ offsets_fit n offsets.now }
{
    offsets.len() == 2 * n && all_near(offsets)
}

// Returns where in the framed picture, whose rows are `span` apart, the levels of each input begin: at the cell that is read for the first cell of row y.
pub fn starts_of(n: usize, offsets: &[i8], span: usize, y: usize) -> [usize; MOST_WIRES]
    requires { (n ≤ most_inputs) × AreOffsets n offsets.now × (span ≤ most_span) × (y ≤ most_side) }
    ensures { (i : ℕ) → i < n → get_or result i 0 ≡ start_of offsets.now span y i }
{
    let mut starts = [0usize; MOST_WIRES];
    for i in 0..n {
        let across = reach_of(offsets[2 * i]);
        let down = reach_of(offsets[2 * i + 1]);
        starts[i] = (y + down) * span + across;
    }
    starts
}
