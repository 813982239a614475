// The judge: the first fault of a split, or that it is right.
#![tactic(auto)]

use job::{Numbers, fitness, rows};

mod pairs; // pairs.rt: extracts with forbidden sets, extracts that share a column
mod unmet; // unmet.rt: needs that no extract meets

ghost use Rattle.job.specs.Given.{given};
ghost use Rattle.judge.specs.Promises.{Judges};

// An answer. A fault is what was asked for and no failure, and each has places of its own, so this is no Result.
#[derive(Clone, Copy, Debug, PartialEq, Eq)]
pub enum Verdict {
    Unfit, // refusal 7: the numbers are unfit
    Improper(usize), // extract i is empty or names a missing column
    Forbids(usize, usize), // extract i contains forbidden set j
    Shares(usize, usize), // extracts i and j share a column, i is below j
    Unmet(usize), // need k is met by no extract
    Right,
}

// Judges a list of numbers as the split of a job. The first fault is answered, in the order of the answers, with the smallest indices.
// It doesn't say whether fewer extracts would do.
pub fn judge(numbers: Numbers, split: &[u16]) -> Verdict
    ensures { Judges (given numbers.entry) split.now result }
{
    let Some(job) = job::load(numbers) else {
        return Verdict::Unfit;
    };
    if let Some(i) = fitness::first_unfit_set(job.columns, split) {
        return Verdict::Improper(i);
    }
    if let Some((i, j)) = pairs::first_forbidden(numbers.forbidden, split) {
        return Verdict::Forbids(i, j);
    }
    if let Some((i, j)) = pairs::first_sharing(split) {
        return Verdict::Shares(i, j);
    }
    let rows = rows::rows_of(numbers.marks);
    if let Some(k) = unmet::first_unmet(&rows[..job.needs], split) {
        return Verdict::Unmet(k);
    }
    Verdict::Right
}
