// A group's assignments as offsets into the cells, in the order of their count.
ghost use Rattle.std.specs.Prelude.{◌≡◌, ℕ, ◌+◌, ◌*◌, ◌^◌, ◌≤◌, ◌<◌, length, take, get_or};
ghost use Rattle.rules.specs.Groups.Groups.{size, points, others};
ghost use Rattle.radix.specs.Fronts.{Front};
ghost use Rattle.radix.specs.Offsets.{widened};
ghost use Rattle.radix.specs.Widths.{most_members, offsets_end, most_offsets};

use crate::{members, powers};

// Widens the first `len` offsets to m times as many: for each level of one more input of weight w, all of them plus that level times w.
pub fn widen(out: &mut [u16], len: usize, w: u16, m: usize) -> usize
    requires { (0 < len) × (0 < m) × (len * m ≤ length out.old) × ((k : ℕ) → k < len → get_or out.old k 0 + w * m < offsets_end) }
    ensures { (result ≡ len * m) × (take (len * m) out.new ≡ widened m w (take len out.old)) }
{
    let end = len * m;
    for j in len..end {
        out[j] = out[j - len] + w;
    }
    end
}

// Writes the assignments of group g to the front of `out`, and returns how many there are.
pub fn offsets(m: usize, n: usize, g: usize, out: &mut [u16]) -> usize
    requires { (0 < m) × (n ≤ most_members) × (m ^ n ≤ most_offsets) × (m ^ size n g ≤ length out.old) }
    ensures { Front (points m n g) result out.new }
{
    let mut len: usize = 1;
    let mut w: usize = 1;
    out[0] = 0;
    for i in (0..n).rev() {
        if members::member_of(g, i) {
            len = widen(out, len, w as u16, m);
        }
        w *= m;
    }
    len
}

// The same for the inputs that are not members.
pub fn other_offsets(m: usize, n: usize, g: usize, out: &mut [u16]) -> usize
    requires { (0 < m) × (n ≤ most_members) × (m ^ n ≤ most_offsets) × (m ^ n ≤ length out.old) × (g < 2 ^ n) }
    ensures { Front (points m n (others n g)) result out.new }
{
    offsets(m, n, powers::power(2, n) - 1 - g, out)
}
