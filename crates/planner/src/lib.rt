// The planner's split of a job: of all correct splits those with fewest extracts, of these those with fewest columns in all, and of these,
// written as rising numbers, the one whose first differing number is smaller.
#![tactic(auto)]

ghost use Rattle.job.specs.Given.{given};
ghost use Rattle.planner.specs.Promises.{Plans, in_numbers};

use columns::ALL_SETS;
use job::Numbers;
use job::refusals::Refusal;

// No planner's split has more extracts: each serves a need that no other does, and a job has at most eight needs.
pub const MOST_EXTRACTS: usize = 8;

// Writes the planner's split over the first places of the slice, which has 8 places or more, and answers how many extracts it has; a refusal
// writes nothing. No memory is taken, so the slice is lent and the answer is how many of its places are in use.
pub fn plan(numbers: Numbers, extracts: &mut [u16]) -> Result<u16, Refusal>
    ensures { Plans (given numbers.entry) extracts.old (in_numbers result) extracts.new }
{
    let Some(job) = job::load(numbers) else {
        return Err(Refusal::NumbersUnfit);
    };
    if extracts.len() < MOST_EXTRACTS {
        return Err(Refusal::SliceTooShort);
    }
    let needs = job.needs as u16;
    let mut gains = [0u8; ALL_SETS];
    tables::gains(&job, &mut gains);
    let Some(count) = searching::best(&gains, job.columns, needs, extracts) else {
        return Err(Refusal::NoCorrectSplit);
    };
    Ok(count)
}
