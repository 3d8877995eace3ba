// What a call that makes a net returns with its count of layers: the sheet's length and the layers.
#[derive(Clone, Copy, PartialEq, Eq, Debug)]
pub struct Layered {
    pub length: usize,
    pub layers: usize,
}
