// One gate at the assignments of its own group. A wire has a list of entries, one for each assignment of its group: 16 times the assignment's index
// plus the wire's value. A gate's list has an entry for each pair of its left's entries and its right's.
ghost use Rattle.evaluation.specs.Lists.Pairs.{RowReady, RowDone, JoinReady, PairsJoined};

use crate::lists::order::{Order, Span};

// Writes a gate's entries from `to` on, for one entry of the outer list and all of the inner list. The digits for the outer entry begin at `row` and are
// `step` apart, and its assignment is `place`.
fn join_row(
    inner: Span,
    digits: &[u8],
    row: usize,
    step: usize,
    place: usize,
    to: usize,
    lists: &mut [u16],
)
    requires { RowReady inner digits.now row step place to lists.old }
    ensures { RowDone inner digits.now row step place to lists.old lists.new }
{
    for j in 0..inner.count {
        let b = lists[inner.start + j] as usize;
        let digit = digits[row + b % 16 * step] as usize;
        lists[to + j] = ((place + b / 16) * 16 + digit) as u16;
    }
}

// Writes a gate's list from `to` on. The gate's digits begin at `from`.
pub fn join(order: Order, digits: &[u8], from: usize, to: usize, lists: &mut [u16])
    requires { JoinReady order digits.now from to lists.old }
    ensures { PairsJoined order digits.now from to lists.old order.outer.count lists.new }
{
    let outer = order.outer;
    let inner = order.inner;
    let mut at = to;
    for i in 0..outer.count {
        let a = lists[outer.start + i] as usize;
        join_row(
            inner,
            digits,
            from + a % 16 * order.wide,
            order.step,
            a / 16,
            at,
            lists,
        );
        at += inner.count;
    }
}
