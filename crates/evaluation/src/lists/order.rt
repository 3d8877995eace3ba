// The order of a gate's two lists. The longer one is in the inner loop, so that this loop starts less often.
ghost use Rattle.std.specs.Prelude.{◌≡◌, ◌+◌, ◌*◌, ◌≤◌, ◌<◌};
ghost use Rattle.evaluation.specs.Lists.Wires.{list_room};
ghost use Rattle.evaluation.specs.Lists.Entries.{Ordered, joined_span};

// Where a wire's list begins, how many entries it has, and the wire's group.
#[derive(Clone, Copy)]
pub struct Span {
    pub start: usize,
    pub count: usize,
    pub group: usize,
}

// The lists of the outer loop and of the inner loop. The gate's digits for one value and the next are `wide` apart for the outer list, and `step` apart
// for the inner one.
#[derive(Clone, Copy)]
pub struct Order {
    pub wide: usize,
    pub step: usize,
    pub outer: Span,
    pub inner: Span,
}

// Returns the span of a gate whose list begins at `to`.
pub fn joined_span(left: Span, right: Span, to: usize) -> Span
    requires { (left.count * right.count ≤ list_room) × (left.group + right.group < 4096) }
    ensures { result ≡ joined_span left right to }
{
    Span {
        start: to,
        count: left.count * right.count,
        group: left.group + right.group,
    }
}

// Returns the order in which the shorter of the left's and the right's list is outside.
pub fn shorter_outside(m: usize, left: Span, right: Span) -> Order
    ensures { Ordered m left right result }
{
    if right.count < left.count {
        Order {
            wide: 1,
            step: m,
            outer: right,
            inner: left,
        }
    } else {
        Order {
            wide: m,
            step: 1,
            outer: left,
            inner: right,
        }
    }
}
