// The first three lines of a sheet.
ghost use Rattle.std.specs.Prelude.{◌≡◌, map, ◌+◌, ◌-◌, ◌≤◌, ◌<◌};
ghost use Rattle.rules.specs.Lists.{range};
ghost use Rattle.rules.specs.Limits.{most_inputs};
ghost use Rattle.nets.specs.Forms.{name_in, NamesHeld};
ghost use Rattle.fields.specs.Steps.{layout_of};
ghost use Rattle.fields.specs.Header.NameLine.{NameRead, due_before, NamesRead};

use crate::ends::{after_field_in, judged};
use crate::header::names::is_new_name;
use crate::runs::{SPACE, field_at};
use crate::steps::{Field, Layout};
use answers::refusal::{Kind, Refusal};
use nets::forms::{Header, no_names};

// A header that was read, and where reading continues.
#[derive(Clone, Copy)]
pub struct HeaderRead {
    pub header: Header,
    pub next: usize,
}

// Reads the name after the first `count`; an accepting step returns its length.
pub fn name_field(
    s: &[u8],
    at: usize,
    header: Header,
    count: usize,
    due: u8,
    layout: Layout,
) -> Result<Field, Refusal>
    requires { (count ≤ most_inputs) × NamesHeld s.now header count }
    ensures { NameRead (layout_of layout) s.now at due (map (name_in s.now header) (range 0 count)) result }
{
    let w = field_at(s, at);
    let verdict = judged(is_new_name(s, header, count, w), w.len(), Kind::Name);
    after_field_in(s, at, w, verdict, due, layout)
}

// Returns the separator that must follow name i of n.
pub fn due_after(i: usize, n: usize, last: u8) -> u8
    requires { i < n }
    ensures { result ≡ due_before (n - (i + 1)) last }
{
    if i + 1 == n {
        return last;
    }
    SPACE
}

// Reads the `inputs` names, starting at `at`.
pub fn name_fields(
    s: &[u8],
    at: usize,
    levels: usize,
    inputs: usize,
    last: u8,
    layout: Layout,
) -> Result<HeaderRead, Refusal>
    requires { inputs ≤ most_inputs }
    ensures { NamesRead (layout_of layout) s.now at levels inputs last result }
{
    let mut header = no_names(levels, inputs);
    let mut place = at;
    for i in 0..inputs {
        let due = due_after(i, inputs, last);
        let name = name_field(s, place, header, i, due, layout)?;
        header.starts[i] = place;
        header.lens[i] = name.value as u8;
        place = name.next;
    }
    Ok(HeaderRead {
        header,
        next: place,
    })
}
