// The numbers of a job as one value, and what is answered in numbers.
ghost use Rattle.std.specs.Prelude.{◌≡◌, MatchResult};
ghost use Rattle.job.specs.Refusals.{number_of};

use job::Numbers;
use job::refusals::Refusal;

pub fn numbers<'a>(columns: usize, forbidden: &'a [u16], marks: &'a [u16]) -> Numbers<'a>
    ensures columns { result.columns ≡ columns }
    ensures forbidden { result.forbidden.now ≡ forbidden.now }
    ensures marks { result.marks.now ≡ marks.now }
{
    Numbers {
        columns,
        forbidden,
        marks,
    }
}

// 0 and what was answered, or the refusal's number and what stands for no answer.
pub fn in_numbers<T: Copy>(answer: Result<T, Refusal>, none: T) -> (u16, T)
    ensures { MatchResult answer (λ x. result ≡ (0, x)) (λ refusal. result ≡ (number_of refusal, none)) }
{
    match answer {
        Ok(value) => (0, value),
        Err(refusal) => (refusal.into(), none),
    }
}
