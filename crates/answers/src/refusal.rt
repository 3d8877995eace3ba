// Refusals: their kinds, by number, and their places.
ghost use Rattle.std.specs.Prelude.{◌≡◌};
ghost use Rattle.answers.specs.Kinds.{number_of};

// What a refusal is about. docs/REFUSALS.md has an example of each kind, by its number.
#[derive(Clone, Copy, PartialEq, Eq, Debug)]
pub enum Kind {
    // A fixed word or a separator is not there, the sheet ends too early, or bytes follow its last line.
    Layout = 1,
    // Levels is not one digit from 2 to 9.
    Levels = 2,
    // Inputs is not a number from 2 to 12, or there would be too many cells.
    Inputs = 3,
    // A name is malformed, is `ink`, or is repeated.
    Name = 4,
    // A row's input level is not the next in the count.
    Row = 5,
    // An ink field, or a gate's table field.
    Digits = 6,
    // A reference is to no input and to no earlier gate.
    UnknownReference = 7,
    // A reference was used before.
    UsedReference = 8,
    // Bare cells: levels, inputs or the number of cells is out of bounds.
    BareSize = 9,
    // A bare cell is above levels; the place is its index.
    BareCell = 10,
    // The group is empty, or no group of these inputs.
    Group = 11,
    // Two sheets differ in levels, inputs or names.
    HeadersDiffer = 12,
    // The cells buffer is too short; the place is the length needed.
    CellsShort = 13,
    // The marks buffer is too short; the place is the length needed.
    MarksShort = 14,
    // The output is too short; the place is the length needed.
    OutputShort = 15,
    // No tree of two-input gates computes the table; the place is a group.
    NoTree = 16,
    // The table has no tree of this number; the place is the number.
    NoSuchTree = 17,
    // An arrival sheet: a name is not the next input's.
    ArrivalName = 18,
    // An arrival sheet: a time is malformed or too large, or `to` is below `from`.
    ArrivalTime = 19,
    // A loose sheet: a row names the assignment of an earlier row.
    RepeatedRow = 20,
    // A step of a job that is done.
    JobDone = 21,
    // Finishing a job that is not done; the place is the groups still to go.
    JobUnfinished = 22,
    // No gate tables give the wiring the table; the place is a gate's number, or 0 where the wiring leaves out an input that matters.
    Wiring = 23,
    // A picture's side, the number of its cells, or a cell's level.
    Picture = 24,
    // An offset is missing, one too many, or too far.
    Offsets = 25,
    // A net sheet: an earlier gate is never used; the place is the sheet's length.
    UnusedGate = 26,
    // A cell is left open where a full table is needed; the place is the lowest index of one.
    OpenCell = 27,
}

impl Kind {
    // Returns the kind's number in the list of refusals.
    pub fn number(self) -> usize
        ensures { result ≡ number_of self }
    {
        self as usize
    }
}

// Why a call refuses, and where.
#[derive(Clone, Copy, PartialEq, Eq, Debug)]
pub struct Refusal {
    pub kind: Kind,
    pub place: usize,
}
