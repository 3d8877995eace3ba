// What reading a field gives, and how fields are separated. specs/Steps.antt says what each means.

// A field that was read: its value, and where reading continues.
#[derive(Clone, Copy, PartialEq, Eq, Debug)]
pub struct Field {
    pub value: usize,
    pub next: usize,
}

// How the fields of a sheet are separated.
#[derive(Clone, Copy, PartialEq, Eq, Debug)]
pub enum Layout {
    Strict,
    Loose,
}
