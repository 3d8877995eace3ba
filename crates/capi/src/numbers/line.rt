// A gate line at a position of a sheet, as numbers.

// Kind 0: no line is left, and `start` and `length` are 0. Kind 1: a line of `length` bytes that begins at `start`. `next` is the position of the
// next line, or the sheet's end.
#[repr(C)]
#[derive(Drop)]
pub struct SitgurpLine {
    pub kind: usize,
    pub start: usize,
    pub length: usize,
    pub next: usize,
}
