// The rows of the wires, in one array: a wire's group, the number of its samples, and these: one assignment for each value that the wire carries, in
// the order of the values.
ghost use Rattle.std.specs.Prelude.{◌≡◌, ℕ, ◌+◌, ◌*◌, ◌^◌, ◌≤◌, ◌<◌, length, get_or};
ghost use Rattle.rules.specs.Limits.{most_cells, most_inputs, most_levels};
ghost use Rattle.rules.specs.Nets.Filling.{input_groups};
ghost use Rattle.gate_tables.specs.Store.{PutAt, RowPut, WireRows, group_at_of, size_at, samples_at};

use radix::{limits, powers};

// The length of a row.
pub const ROW: usize = limits::MOST_LEVELS + 2;

// Returns the group of wire r.
pub fn group_of(wires: &[u16], r: u8) -> u16
    requires { r * 11 < length wires.now }
    ensures { result ≡ group_at_of wires.now r }
{
    wires[r as usize * ROW]
}

// Returns the samples of wire r.
pub fn samples_of(wires: &[u16], r: u8) -> &[u16]
    requires { r * 11 + 2 + size_at wires.now r ≤ length wires.now }
    ensures { result.now ≡ samples_at wires.now r }
{
    let at = r as usize * ROW + 2;
    let end = at + wires[r as usize * ROW + 1] as usize;
    &wires[at..end]
}

// Writes the row of wire r. Its samples are the first `count` of `from`.
pub fn put_row(r: usize, group: u16, from: &[u16], count: usize, wires: &mut [u16])
    requires { (count < 65536) × (count ≤ length from.now) × (r * 11 + 2 + count ≤ length wires.old) }
    ensures { RowPut r group count (λ i. get_or from.now i 0) wires.old wires.new }
{
    let at = r * ROW;
    wires[at] = group;
    wires[at + 1] = count as u16;
    wires[at + 2..at + 2 + count].copy_from_slice(&from[..count]);
}

// Writes the assignments of an input of weight w, one for each level.
fn level_points(m: usize, w: usize, out: &mut [u16])
    requires { (m ≤ length out.old) × (m * w < 65536) }
    ensures { PutAt (λ l. l * w) 0 m out.old out.new }
{
    for l in 0..m {
        out[l] = (l * w) as u16;
    }
}

// Writes the row of each input.
pub fn input_wires(m: usize, n: usize, wires: &mut [u16])
    requires { (0 < m) × (m ≤ most_levels) × (n ≤ most_inputs) × (m ^ n ≤ most_cells) × (n * 11 ≤ length wires.old) }
    ensures { (f : ℕ → ℕ) → WireRows m n f (input_groups n) n wires.new }
{
    for i in 0..n {
        let mut points = [0u16; limits::MOST_LEVELS];
        level_points(m, powers::power(m, n - 1 - i), &mut points);
        put_row(i, powers::power(2, i) as u16, &points, m, wires);
    }
}
