// The words for every refusal of a text: where it is, what is wrong there, and what to do.
ghost use Rattle.std.specs.Prelude.{◌++◌};
ghost use Rattle.rules.specs.Signs.{bytes};
ghost use Rattle.rules.specs.Names.{name_at};
ghost use Rattle.job.specs.Refusals.{number_of};
ghost use Rattle.writing.specs.Puts.{Puts};
ghost use Rattle.advice.specs.Positions.{position_in};
ghost use Rattle.advice.specs.Sentences.{count_words, remedy, located};

use crate::counted::counted_lines;
use crate::position::{Position, Spot};
use crate::words::too_many_words;
use crate::wrong::wrong_at;
use job::refusals::Refusal;
use naming::words::name_end;
use writing::Page;

// Puts the line and the column.
#[tactic(auto, using(writing::proofs::Adding::puts_both), unfolding(crate::specs::Sentences::located))]
pub fn put_located(page: &mut Page, position: Position)
    ensures { Puts (located (position_in position)) page.old page.new }
{
    page.put(b"Line ");
    page.put_number(position.line);
    page.put(b", column ");
    page.put_number(position.column);
    page.put(b": ");
}

// Puts what is wrong with a text and what to do, by its refusal.
#[tactic(auto, unfolding(crate::specs::Sentences::remedy))]
pub fn put_remedy(page: &mut Page, spot: Spot, refusal: Refusal)
    ensures { Puts (remedy spot.entry.text.now (number_of refusal) spot.entry.place (position_in spot.entry.position)) page.old page.new }
{
    match refusal {
        Refusal::TextTooLong => page.put(
            b"the text has more than 8192 bytes; use shorter names, or leave out lines that stand twice.\n",
        ),
        Refusal::TextNotOfForm => {
            let wrong = wrong_at(spot.text, spot.place, spot.position.column);
            page.put(wrong.words());
        }
        Refusal::TooMany => page.put(too_many_words(spot)),
        Refusal::NameTwice => put_named(
            page,
            spot,
            b" stands here for the second time in its line; take it out or write the one that was meant.\n",
        ),
        Refusal::NameUnknown => put_named(
            page,
            spot,
            b" is no column; correct it, or add it to the line columns= if the register has this column.\n",
        ),
        _ => put_count(page, counted_lines(spot.text)),
    }
}

// Puts that the name at a place of the text is what these words say.
fn put_named(page: &mut Page, spot: Spot, words: &[u8])
    ensures { Puts (bytes "the name " ++ (name_at spot.entry.text.now spot.entry.place ++ words.now)) page.old page.new }
{
    page.put(b"the name ");
    put_name(page, spot);
    page.put(words);
}

// Puts the letters and digits of the text from a place on.
fn put_name(page: &mut Page, spot: Spot)
    ensures { Puts (name_at spot.entry.text.now spot.entry.place) page.old page.new }
{
    let Spot { text, place, .. } = spot;
    // past the end there are none, and no part of the text to take
    if place < text.len() {
        page.put(&text[place..name_end(text, place)]);
    }
}

// Puts that there are so many forbid and need lines.
fn put_count(page: &mut Page, lines: usize)
    ensures { Puts (count_words lines) page.old page.new }
{
    page.put(b"the number of forbid and need lines is ");
    page.put_number(lines);
    page.put(b"; see that no line was lost or added, and then write this number here.\n");
}
