// The first assignment of each class of a group.
ghost use Rattle.std.specs.Prelude.{◌≡◌, ℕ, ◌^◌, ◌≤◌, ◌<◌, ltb, length, take, get_or};
ghost use Rattle.rules.specs.Limits.{most_cells, most_levels};
ghost use Rattle.rules.specs.Groups.Groups.{points, others, multiplicity};
ghost use Rattle.rules.specs.Calls.Answers.{ink_in};
ghost use Rattle.radix.specs.Fronts.{Front};
ghost use Rattle.classes.specs.Firsts.{classes_over};
ghost use Rattle.classes.specs.Chains.{NoChains};
ghost use Rattle.classes.specs.Keys.{Keys};
ghost use Rattle.classes.specs.Within.{Within, OffsetRoom, GroupRoom};

use crate::keys;
use radix::limits::MOST_LEVELS;
use radix::{offsets, powers};

// Puts the first of each class among the assignments xs to the front of `firsts`, stops at `enough` of them, and returns how many it put. `heads` and
// `links` store the chains of these, by their keys over the first `width` columns.
pub fn class_firsts(
    m: usize,
    cells: &[u8],
    xs: &[u16],
    ys: &[u16],
    width: usize,
    enough: usize,
    firsts: &mut [u16],
    links: &mut [u16],
    heads: &mut [u16],
) -> usize
    requires { (m ≤ most_levels) × (enough ≤ length firsts.old) × (enough ≤ length links.old) × (enough ≤ most_cells) × (width ≤ length ys.now)
        × NoChains heads.old × (Keys m (ink_in cells.now) ys.now width (length heads.old))
        × ((i : ℕ) → i < length xs.now → Within (length cells.now) ys.now (get_or xs.now i 0)) }
    ensures { Front (take enough (classes_over (ink_in cells.now) ys.now xs.now)) result firsts.new }
{
    let mut count: usize = 0;
    // By its index: going over `xs` itself, `sitgurp_multiplicity` of all of 12 inputs of two levels takes 5 % more instructions.
    for i in 0..xs.len() {
        if count == enough {
            return count;
        }
        let p = xs[i];
        let key = keys::key(m, cells, ys, width, p as usize);
        let head = heads[key];
        if !keys::in_chain(cells, ys, firsts, links, head as usize, p as usize) {
            firsts[count] = p;
            links[count] = head;
            count += 1;
            heads[key] = count as u16;
        }
    }
    count
}

// How many assignments a group has, and how many the other inputs have.
#[derive(Drop)]
pub struct Counts {
    pub own: usize,
    pub other: usize,
}

// Writes the assignments of group g to the front of `xs` and those of the other inputs to the front of `ys`, and returns how many there are.
pub fn group_offsets(m: usize, n: usize, g: usize, xs: &mut [u16], ys: &mut [u16]) -> Counts
    requires { (GroupRoom m n g xs.old ys.old) × (g < 2 ^ n) }
    ensures { (Front (points m n g) result.own xs.new) × (Front (points m n (others n g)) result.other ys.new) }
{
    let own = offsets::offsets(m, n, g, xs);
    let other = offsets::offsets(m, n, powers::power(2, n) - 1 - g, ys);
    Counts { own, other }
}

// Returns whether group g has more than m classes. Stops counting as soon as it does. `xs` and `ys` are work arrays.
pub fn more_classes_than_levels(
    m: usize,
    n: usize,
    cells: &[u8],
    g: usize,
    xs: &mut [u16],
    ys: &mut [u16],
) -> bool
    requires { (OffsetRoom m n cells.now xs.old ys.old) × (m ≤ most_levels) × (g < 2 ^ n) }
    ensures { result ≡ ltb m (multiplicity m n (ink_in cells.now) g) }
{
    let mut firsts = [0u16; MOST_LEVELS + 1];
    let mut links = [0u16; MOST_LEVELS + 1];
    let mut heads = [0u16; 1];
    let counts = group_offsets(m, n, g, xs, ys);
    let own = counts.own;
    let other = counts.other;
    m < class_firsts(
        m,
        cells,
        &xs[0..own],
        &ys[0..other],
        0,
        m + 1,
        &mut firsts,
        &mut links,
        &mut heads,
    )
}
