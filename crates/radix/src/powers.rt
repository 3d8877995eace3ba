// Powers, and whether m, n and the number of cells are within a sheet's bounds.
ghost use Rattle.std.specs.Prelude.{◌≡◌, ◌^◌, ◌≤◌, ◌<◌, length};
ghost use Rattle.rules.specs.Limits.{size_fits, most_levels};
ghost use Rattle.radix.specs.Weights.{Weights};
ghost use Rattle.radix.specs.Widths.{most_members, most_offsets};

use crate::limits;

// Returns m to the power n, for a digit m and n small enough that it fits.
pub fn power(m: usize, n: usize) -> usize
    requires { (m ≤ most_levels) × (n ≤ most_members) }
    ensures { result ≡ m ^ n }
{
    m.pow(n as u32)
}

// Writes the weight of each input in an index: m to the power of the number of inputs after it.
pub fn weights(m: usize, n: usize, out: &mut [u16])
    requires { (0 < m) × (m ^ n ≤ most_offsets) × (n ≤ length out.old) }
    ensures { Weights m n out.new }
{
    let mut w: usize = 1;
    for i in (0..n).rev() {
        out[i] = w as u16;
        w *= m;
    }
}

// Are m, n and the number of cells within a sheet's bounds? Accepts any numbers.
pub fn size_fits(m: usize, n: usize) -> bool
    ensures { result ≡ size_fits m n }
{
    limits::FEWEST_LEVELS <= m
        && m <= limits::MOST_LEVELS
        && limits::FEWEST_INPUTS <= n
        && n <= limits::MOST_INPUTS
        && power(m, n) <= limits::MOST_CELLS
}
