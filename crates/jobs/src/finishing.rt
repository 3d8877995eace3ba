// Finishing a job: what making returns for the job's own table.
ghost use Rattle.std.specs.Prelude.{◌≡◌, List, ℕ, ◌≤◌, length};
ghost use Rattle.rules.specs.Limits.{most_cells};
ghost use Rattle.rules.specs.Calls.Jobs.{may_finish, finish_job};
ghost use Rattle.nets.specs.Forms.{table_in};
ghost use Rattle.answers.specs.AnswerMaps.{made_of, outcome_as};
ghost use Rattle.jobs.specs.Forms.{Fronted, job_in};

use answers::refusal::{Kind, Refusal};
use cells::bare;
use fields::header::first_lines::header_lines;
use fields::runs::SPACE;
use nets::forms::Header;
use radix::powers;
use settling::table;

// Returns refusal 9, 10, 27 or 22, or accepts: the table `inks` may be finished with this many groups passed.
fn may_finish(lines: &[u8], h: Header, inks: &[u8], passed: usize) -> Result<(), Refusal>
    requires { Fronted lines.now h }
    ensures { (marks : List ℕ) → outcome_as tt result
        ≡ may_finish (record { table = table_in lines.now h inks.now; marks = marks; passed = passed }) }
{
    bare::full_cells(h.levels, h.inputs, inks)?;
    let groups = powers::power(2, h.inputs) - 1;
    if passed < groups {
        return Err(Refusal {
            kind: Kind::JobUnfinished,
            place: groups - passed,
        });
    }
    Ok(())
}

// Finishes a job whose lines have the header h.
fn finish_under(
    lines: &[u8],
    h: Header,
    inks: &[u8],
    passed: usize,
    cells: &mut [u8],
    marks: &mut [u8],
    out: &mut [u8],
) -> Result<usize, Refusal>
    requires { Fronted lines.now h }
    ensures { (own : List ℕ) → made_of result cells.new marks.new out.new
        ≡ (finish_job (record { table = table_in lines.now h inks.now; marks = own; passed = passed })
        cells.old marks.old out.old).made }
{
    may_finish(lines, h, inks, passed)?;
    table::make_table(lines, h, inks, cells, marks, out)
}

// Finishes a job given by its parts; `own` are its cells. If the lines are not a sheet's first lines, there is no table.
pub fn finish_in(
    lines: &[u8],
    own: &[u8],
    passed: usize,
    cells: &mut [u8],
    marks: &mut [u8],
    out: &mut [u8],
) -> Result<usize, Refusal>
    requires { most_cells ≤ length own.now }
    ensures { (own_marks : List ℕ) → made_of result cells.new marks.new out.new
        ≡ (finish_job (job_in lines.now own.now own_marks passed) cells.old marks.old out.old).made }
{
    match header_lines(lines, SPACE) {
        Err(_) => Err(Refusal {
            kind: Kind::BareSize,
            place: 0,
        }),
        Ok(read) => {
            let h = read.header;
            let count = powers::power(h.levels, h.inputs);
            finish_under(lines, h, &own[0..count], passed, cells, marks, out)
        }
    }
}
