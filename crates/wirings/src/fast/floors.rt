// A lower bound on a group's layers, from its number of members. The search of a group stops at a split that has no more layers.
ghost use Rattle.std.specs.Prelude.{◌<◌, length};
ghost use Rattle.wirings.specs.Fast.Floors.{Floor, FloorAt};

use marks::own;
use radix::members;

// Returns the fewest layers that have room for this many members: r layers have room for 2 to the power r. It is the length of members - 1 in bits.
fn floor_of(members: usize) -> usize
    ensures { Floor members result }
{
    if members == 0 {
        return 0;
    }
    64 - usize::leading_zeros(members - 1) as usize
}

// Returns a lower bound on the layers of a split of group g, if g has mark 2: the bound by its members if all groups of mark 2 below it have room for
// theirs, else the bound for any split. No other group is searched, so 0 is enough.
pub fn floor_at(marks: &[u8], g: usize, sized: bool) -> usize
    requires { g < length marks.now }
    ensures { FloorAt marks.now g sized result }
{
    if own::mark_at(marks, g) != 2 {
        return 0;
    }
    if sized {
        return floor_of(members::members_of(g));
    }
    1
}
