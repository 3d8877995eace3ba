// Asks a job for a group's mark.
ghost use Rattle.std.specs.Prelude.{◌≡◌, List, ℕ, ◌≤◌, length};
ghost use Rattle.rules.specs.Calls.Jobs.{ask_job};
ghost use Rattle.jobs.specs.Forms.{Fronted, most_groups, job_in};
ghost use Rattle.jobs.specs.Asking.{reached_as};

use answers::refusal::{Kind, Refusal};
use fields::header::first_lines::header_lines;
use fields::runs::SPACE;
use nets::forms::Header;
use radix::powers;

// Returns a group's mark in a job whose lines have the header h, or nothing if the group is not reached.
fn mark_under(
    lines: &[u8],
    h: Header,
    marks: &[u8],
    passed: usize,
    group: usize,
) -> Result<Option<u8>, Refusal>
    requires { Fronted lines.now h × (most_groups ≤ length marks.now) }
    ensures { (cells : List ℕ) → reached_as result ≡ (ask_job (job_in lines.now cells marks.now passed) group).answer }
{
    if group == 0 || powers::power(2, h.inputs) <= group {
        return Err(Refusal {
            kind: Kind::Group,
            place: 0,
        });
    }
    if passed < group {
        return Ok(None);
    }
    Ok(Some(marks[group]))
}

// Returns a group's mark in a job given by its parts. If the lines are not a sheet's first lines, there are no groups.
pub fn mark_in(
    lines: &[u8],
    marks: &[u8],
    passed: usize,
    group: usize,
) -> Result<Option<u8>, Refusal>
    requires { most_groups ≤ length marks.now }
    ensures { (cells : List ℕ) → reached_as result ≡ (ask_job (job_in lines.now cells marks.now passed) group).answer }
{
    match header_lines(lines, SPACE) {
        Err(_) => Err(Refusal {
            kind: Kind::Group,
            place: 0,
        }),
        Ok(read) => mark_under(lines, read.header, marks, passed, group),
    }
}
