// The lister as a struct, with thin functions over it: each takes it apart and calls a function of the sheet and the place.
ghost use Rattle.lister.specs.Reached.{Started, TurnedOn};
ghost use Rattle.lister.specs.Turns.{Says, is_none, part_in};

use crate::calls::first_place;
use crate::places::line_after;
use crate::turns::{line_at, none_left};

// The sheet that the lister borrows, and the lister's place in it.
#[derive(Clone, Copy)]
pub struct Lister<'a> {
    sheet: &'a [u8],
    at: usize,
}

impl<'a> Lister<'a> {
    // Reads the sheet. If it is not accepted, no line is left from the start, and `open` returns the refusal.
    pub fn start(sheet: &'a [u8]) -> Lister<'a>
        ensures { Started sheet.entry result }
    {
        let at = first_place(sheet);
        Lister { sheet, at }
    }

    // Tests whether no line is left at this turn.
    pub fn done(self) -> bool
        ensures { Says self.entry.sheet.now self.entry.at is_none result }
    {
        none_left(self.sheet, self.at)
    }

    // Returns this turn's line.
    pub fn line(self) -> &'a [u8]
        ensures { Says self.entry.sheet.now self.entry.at (part_in self.entry.sheet) (result.ref_ptr, result.now) }
    {
        line_at(self.sheet, self.at)
    }

    // Returns the lister after one more turn.
    pub fn next(self) -> Lister<'a>
        ensures { TurnedOn self.entry result }
    {
        let at = line_after(self.sheet, self.at);
        Lister {
            sheet: self.sheet,
            at,
        }
    }
}
