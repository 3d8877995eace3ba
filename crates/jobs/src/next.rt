// The next group of a job: its mark, or that all groups have been passed.
ghost use Rattle.std.specs.Prelude.{◌≡◌, true, ℕ, ◌+◌, ◌^◌, ◌≤◌, ◌<◌, length};
ghost use Rattle.rules.specs.Limits.{size_fits, most_cells};
ghost use Rattle.rules.specs.Groups.Groups.{whole_group};
ghost use Rattle.rules.specs.Groups.Marks.{mark_of};
ghost use Rattle.rules.specs.Calls.Answers.{ink_in};
ghost use Rattle.jobs.specs.Forms.{Fronted, most_groups, job_in};
ghost use Rattle.jobs.specs.Stepping.{MarkReady, NextMark, with_mark};

use crate::job::Job;
use cells::bound::first_at_least;
use fields::header::first_lines::header_lines;
use fields::runs::SPACE;
use marks::group_mark;
use nets::forms::Header;
use radix::limits::MOST_CELLS;
use radix::powers;

// The most inks of a table for which small work arrays are enough. Clearing large ones takes longer than marking a group of such a table.
const FEW_INKS: usize = 256;

// Returns whether g is the whole group and every ink is a level. Such a group has at most m classes, because its classes are the inks.
fn is_whole_of_full(m: usize, n: usize, inks: &[u8], g: usize) -> bool
    requires { (size_fits m n ≡ true) × (length inks.now ≡ m ^ n) }
    ensures { result ≡ true → (g ≡ whole_group n) × ((p : ℕ) → p < m ^ n → ink_in inks.now p < m) }
{
    powers::power(2, n) - 1 == g && first_at_least(m, inks) == inks.len()
}

// Returns the mark of group g from the marks of the groups below it, with work arrays for this many inks.
fn mark_within<const INKS: usize>(m: usize, n: usize, inks: &[u8], g: usize, marks: &[u8]) -> u8
    requires { MarkReady m n inks.now g marks.now × (length inks.now ≤ INKS) × (INKS ≤ most_cells) }
    ensures { result ≡ mark_of m n (ink_in inks.now) marks.now g }
{
    let mut xs = [0u16; INKS];
    let mut ys = [0u16; INKS];
    group_mark::mark_group(m, n, inks, g, &mut xs, &mut ys, marks)
}

// Does the same with small arrays if they are enough. The whole group of a large full table is not counted, so its step takes no longer than the others.
fn mark_one(m: usize, n: usize, inks: &[u8], g: usize, marks: &[u8]) -> u8
    requires { MarkReady m n inks.now g marks.now }
    ensures { result ≡ mark_of m n (ink_in inks.now) marks.now g }
{
    if inks.len() <= FEW_INKS {
        mark_within::<FEW_INKS>(m, n, inks, g, marks)
    } else if is_whole_of_full(m, n, inks, g) {
        group_mark::few_mark(marks, g)
    } else {
        mark_within::<MOST_CELLS>(m, n, inks, g, marks)
    }
}

// Returns the next group's mark in a job whose lines have the header h, or that the job is done.
fn next_under(lines: &[u8], h: Header, cells: &[u8], marks: &[u8], passed: usize) -> Option<u8>
    requires { Fronted lines.now h × (most_cells ≤ length cells.now) × (most_groups ≤ length marks.now) }
    ensures { NextMark (job_in lines.now cells.now marks.now passed) result }
{
    let end = powers::power(2, h.inputs);
    if end - 1 <= passed {
        return None;
    }
    let count = powers::power(h.levels, h.inputs);
    Some(mark_one(
        h.levels,
        h.inputs,
        &cells[0..count],
        passed + 1,
        &marks[0..end],
    ))
}

// Returns the next group's mark in a job given by its parts, or that it is done. If the lines are not a sheet's first lines, there are no groups.
pub fn next_mark(lines: &[u8], cells: &[u8], marks: &[u8], passed: usize) -> Option<u8>
    requires { (most_cells ≤ length cells.now) × (most_groups ≤ length marks.now) }
    ensures { NextMark (job_in lines.now cells.now marks.now passed) result }
{
    match header_lines(lines, SPACE) {
        Err(_) => None,
        Ok(read) => next_under(lines, read.header, cells, marks, passed),
    }
}

// Returns the job with the next group's mark.
pub fn marked(mut job: Job, mark: u8) -> Job
    requires { job.passed + 1 < most_groups }
    ensures { result ≡ with_mark job mark }
{
    job.passed += 1;
    job.marks[job.passed] = mark;
    job
}
