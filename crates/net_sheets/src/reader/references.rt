// A field that refers to an input or to an earlier gate.
ghost use Rattle.std.specs.Prelude.{◌≡◌, ◌+◌, ◌≤◌, eqb};
ghost use Rattle.rules.specs.Lists.{any};
ghost use Rattle.rules.specs.Sheets.Sheets.{used_by};
ghost use Rattle.nets.specs.Forms.{gates_of};
ghost use Rattle.nets.specs.Room.{most_gates, most_wires};
ghost use Rattle.fields.specs.Steps.{judged_as, itself};
ghost use Rattle.net_sheets.specs.Reader.References.{Referred, ReferenceJudged, ReferenceRead, marked_on};

use answers::refusal::{Kind, Refusal};
use fields::ends::after_field;
use fields::header::keys::{key_of, same_key};
use fields::runs::{SPACE, field_at};
use fields::steps::Field;
use nets::forms::{MOST_WIRES, Net};
use radix::limits::MOST_NAME_BYTES;

// Returns what w refers to, of the first `count` inputs and gates.
pub fn reference_of(
    keys: &[u64; MOST_WIRES],
    lens: &[u8; MOST_WIRES],
    count: usize,
    w: &[u8],
) -> Option<usize>
    requires { count ≤ most_wires }
    ensures { Referred keys.now lens.now count w.now result }
{
    if MOST_NAME_BYTES < w.len() {
        return None;
    }
    let key = key_of(w);
    for r in 0..count {
        if same_key(key, w.len(), keys[r], lens[r]) {
            return Some(r);
        }
    }
    None
}

// Tests whether a gate uses r.
pub fn is_used(net: Net, r: usize) -> bool
    requires { net.gates ≤ most_gates }
    ensures { result ≡ any (eqb r) (used_by (gates_of net)) }
{
    for k in 0..net.gates {
        if net.left[k] as usize == r || net.right[k] as usize == r {
            return true;
        }
    }
    false
}

// Tests whether every gate except the last of `gates` is marked as used.
pub fn earlier_used(used: &[bool; MOST_WIRES], inputs: usize, gates: usize) -> bool
    requires { inputs + gates ≤ most_wires }
    ensures { result ≡ marked_on used.now inputs gates 0 }
{
    let earlier = gates.saturating_sub(1);
    for k in 0..earlier {
        if !used[inputs + k] {
            return false;
        }
    }
    true
}

// Judges a reference to one of the first `count` inputs and gates, and marks a good one as used.
pub fn judge_reference(
    keys: &[u64; MOST_WIRES],
    lens: &[u8; MOST_WIRES],
    count: usize,
    w: &[u8],
    used: &mut [bool; MOST_WIRES],
) -> Result<usize, Kind>
    requires { count ≤ most_wires }
    ensures { ReferenceJudged keys.now lens.now count used.old w.now used.new
        (judged_as itself result) }
{
    match reference_of(keys, lens, count, w) {
        None => Err(Kind::UnknownReference),
        Some(r) => {
            if used[r] {
                return Err(Kind::UsedReference);
            }
            used[r] = true;
            Ok(r)
        }
    }
}

// Reads a reference field, and marks the reference as used.
pub fn reference_field(
    s: &[u8],
    at: usize,
    keys: &[u64; MOST_WIRES],
    lens: &[u8; MOST_WIRES],
    count: usize,
    used: &mut [bool; MOST_WIRES],
) -> Result<Field, Refusal>
    requires { count ≤ most_wires }
    ensures { ReferenceRead s.now at keys.now lens.now count used.old used.new result }
{
    let w = field_at(s, at);
    let verdict = judge_reference(keys, lens, count, w, used);
    after_field(s, at, w, verdict, SPACE)
}
