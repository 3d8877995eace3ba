// A job by value, and its four calls. The caller may pass any job, whether it was opened or not.
ghost use Rattle.jobs.specs.Calls.{OpenDone, StepDone, AskDone, FinishDone};

use crate::{asking, finishing, next, opening};
use answers::refusal::{Kind, Refusal};
use marks::own;
use radix::limits;

// Room for the first lines of a table sheet up to the last name and the space after it, at most 127 bytes.
pub const MOST_LINES: usize = 128;

// A job's own copy of names, cells and marks, one byte per cell and mark, each at the front of its array, and how many groups have been passed.
// specs/Forms.antt says what it represents.
#[derive(Drop)]
pub struct Job {
    pub lines: [u8; MOST_LINES],
    pub cells: [u8; limits::MOST_CELLS],
    pub marks: [u8; own::MOST_GROUPS],
    pub passed: usize,
}

// What opening returns. The contract says that the job is empty if the sheet is refused, and docs/DECISIONS.md names this form by value, so no `Result`.
#[derive(Drop)]
pub struct Opened {
    pub job: Job,
    pub outcome: Result<(), Refusal>,
}

#[derive(Drop)]
pub struct Stepped {
    pub job: Job,
    pub outcome: Result<(), Refusal>,
}

#[derive(Drop)]
pub struct Asked {
    pub job: Job,
    pub answer: Result<Option<u8>, Refusal>,
}

#[derive(Drop)]
pub struct Finished {
    pub job: Job,
    pub answer: Result<usize, Refusal>,
}

impl Job {
    // Opens a job on a table sheet.
    pub fn open(s: &[u8]) -> Opened
        ensures { OpenDone s.now result }
    {
        opening::open(s)
    }

    // Returns the job one group further, or refusal 21.
    pub fn step(self) -> Stepped
        ensures { StepDone self result }
    {
        match next::next_mark(&self.lines, &self.cells, &self.marks, self.passed) {
            None => Stepped {
                job: self,
                outcome: Err(Refusal {
                    kind: Kind::JobDone,
                    place: 0,
                }),
            },
            Some(mark) => Stepped {
                job: next::marked(self, mark),
                outcome: Ok(()),
            },
        }
    }

    // Returns the mark of a group that has been passed, or that the group is not reached, or refusal 11.
    pub fn mark(self, group: usize) -> Asked
        ensures { AskDone self group result }
    {
        Asked {
            answer: asking::mark_in(&self.lines, &self.marks, self.passed, group),
            job: self,
        }
    }

    // Returns refusal 9, 10, 27 or 22, or what making returns.
    pub fn finish(self, cells: &mut [u8], marks: &mut [u8], out: &mut [u8]) -> Finished
        ensures { FinishDone self cells.old marks.old out.old result cells.new marks.new
            out.new }
    {
        Finished {
            answer: finishing::finish_in(&self.lines, &self.cells, self.passed, cells, marks, out),
            job: self,
        }
    }
}
