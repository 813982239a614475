// The sentence that a steward gets beside a refusal: where it is, what is wrong there, and what to do.
#![tactic(auto)]

use job::refusals::Refusal;
use position::{Spot, position_of};
use remedy::{put_located, put_remedy};
use writing::Page;

mod position; // position.rt: the line and the column of a place
mod wrong; // wrong.rt: what is wrong where a text stops being of the form
mod counted; // counted.rt: how many lines the number at the end has to count
mod words; // words.rt: the words for too many
mod remedy; // remedy.rt: the words for every refusal of a text

ghost use Rattle.writing.specs.Added.{Holds};
ghost use Rattle.writing.specs.Puts.{Puts};
ghost use Rattle.advice.specs.Sentences.{sentence};

// Writes the sentence for a refusal over the first places of the page, as far as there are places, and says how many bytes of it stand there. It takes the
// refusal as a number, since it promises an answer for every number, also for those that no refusal has.
pub fn advise(text: &[u8], number: u16, place: usize, page: &mut [u8]) -> usize
    ensures { Holds (sentence text.now number place) page.old result page.new }
{
    let mut page = Page {
        places: page,
        end: 0,
    };
    put_sentence(&mut page, text, number, place);
    page.end
}

// Puts the sentence for a refusal by its number. 7 and 8 come from no text, and what is no refusal's number has no sentence either.
#[tactic(auto, using(writing::proofs::Adding::puts_both), unfolding(crate::specs::Sentences::sentence))]
fn put_sentence(page: &mut Page, text: &[u8], number: u16, place: usize)
    ensures { Puts (sentence text.now number place) page.old page.new }
{
    match Refusal::try_from(number) {
        Ok(Refusal::NoCorrectSplit) => page.put(
            b"No split can serve all needs: in every one a need is left over, an extract contains a forbidden set, or a column stands in two extracts; ask for less in a need line.\n",
        ),
        Ok(Refusal::NumbersUnfit | Refusal::SliceTooShort) | Err(_) => {}
        Ok(refusal) => {
            let position = position_of(text, place);
            put_located(page, position);
            let spot = Spot {
                text,
                place,
                position,
            };
            put_remedy(page, spot, refusal);
        }
    }
}
