// The values of a net's wires, each at the assignments of its own group. So an early gate takes few look-ups.
pub mod cells;
pub mod gates;
pub mod inputs;
pub mod join;
pub mod limits;
pub mod order;
