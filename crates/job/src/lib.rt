// A job by value, from its numbers. `load` says whether they are fit.
#![tactic(auto)]

use columns::ColumnSet;

pub mod copies; // copies.rt: numbers written over the first places of a slice
pub mod fitness; // fitness.rt: which numbers are unfit
pub mod refusals; // refusals.rt: the refusals, each with its number
pub mod rows; // rows.rt: the needs laid out for evaluation

ghost use Rattle.std.specs.Prelude.{◌≡◌, length};
ghost use Rattle.rules.specs.Marks.{rows as rows_in};
ghost use Rattle.job.specs.Given.{given};
ghost use Rattle.job.specs.Records.{no_job, job_with, loaded};

// "Forbidden sets 0 to 32." Eight needs of 63 marks and an end mark each are 512.
pub const MOST_FORBIDDEN: usize = 32;

pub const MOST_MARKS: usize = 512;

// The numbers of a fit job. Places without a number are 0: the C interface hands out all places, the unused ones too, so the counts stand beside them.
#[derive(Clone, Copy)]
pub struct Job {
    pub columns: u16,
    pub sets: usize, // how many forbidden sets there are
    pub forbidden: [u16; MOST_FORBIDDEN],
    pub needs: usize, // how many needs the marks are
    pub marked: usize, // how many marks there are
    pub marks: [u16; MOST_MARKS],
}

// The numbers of a job as they are lent, fit or not.
#[derive(Clone, Copy)]
pub struct Numbers<'a> {
    pub columns: usize,
    pub forbidden: &'a [u16],
    pub marks: &'a [u16], // of the needs
}

// The job of the numbers, if they are fit.
pub fn load(numbers: Numbers) -> Option<Job>
    ensures { result ≡ loaded (given numbers.entry) }
{
    let Numbers {
        columns,
        forbidden,
        marks,
    } = numbers;
    if columns == 0
        || (ColumnSet::MOST_COLUMNS as usize) < columns
        || MOST_FORBIDDEN < forbidden.len()
    {
        return None;
    }
    let n = columns as u16;
    if fitness::first_unfit_set(n, forbidden).is_some() {
        return None;
    }
    let needs = fitness::needs_fit(n, marks)?;
    Some(fit(n, forbidden, needs, marks))
}

// A job with no columns, sets or marks.
pub fn no_job() -> Job
    ensures { result ≡ no_job }
{
    Job {
        columns: 0,
        sets: 0,
        forbidden: [0u16; MOST_FORBIDDEN],
        needs: 0,
        marked: 0,
        marks: [0u16; MOST_MARKS],
    }
}

// The job of fit numbers, of which the marks are so many needs.
fn fit(columns: u16, forbidden: &[u16], needs: usize, marks: &[u16]) -> Job
    requires { needs ≡ length (rows_in marks.now) }
    ensures { result ≡ job_with (record { columns = columns; forbidden = forbidden.now; marks = marks.now }) }
{
    let mut sets = [0u16; MOST_FORBIDDEN];
    copies::write(&mut sets, forbidden);
    let mut all = [0u16; MOST_MARKS];
    copies::write(&mut all, marks);
    Job {
        columns,
        sets: forbidden.len(),
        forbidden: sets,
        needs,
        marked: marks.len(),
        marks: all,
    }
}
