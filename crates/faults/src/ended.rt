// Refusal 6: the end line has another number than there are forbid and need lines.
ghost use Rattle.std.specs.Prelude.{◌≡◌, ℕ, ◌-◌};
ghost use Rattle.rules.specs.Signs.{byte_at, line_end};
ghost use Rattle.rules.specs.Texts.{Number, Sheet, OfForm};
ghost use Rattle.rules.specs.Sheets.{end_fault};
ghost use Rattle.faults.specs.Refused.{refusal_in};
ghost use Rattle.faults.specs.Kinds.{Sectioned};

use crate::sections::Places;
use job::refusals::{Fault, Refusal};
use naming::sections::{Section, width};
use naming::signs::byte;

// What a digit is worth.
fn worth(digit: u8) -> usize
    ensures { result ≡ digit - 48 }
{
    usize::from(digit.saturating_sub(b'0'))
}

// The number of one or two digits at a place, with a line's end behind it.
fn number(text: &[u8], at: usize) -> usize
    ensures { (q n : ℕ) → Number text.now at q n → byte_at text.now q ≡ line_end → result ≡ n }
{
    let one = worth(byte(text, at));
    // so that the sum can't overflow; never so in a text of the form
    if text.len() <= at {
        return one;
    }
    let next = byte(text, at + 1);
    if next < b'0' {
        return one;
    }
    10 * one + worth(next)
}

// The number at the end is another than that of the forbid and need lines.
pub fn end_fault(text: &[u8], places: Places) -> Result<(), Fault>
    ensures { (sheet : Sheet) (form : OfForm text.now sheet) → Sectioned text.now sheet form places
        → refusal_in result ≡ end_fault sheet }
{
    // so that the sum can't overflow; never so in a text of the form
    if text.len() <= places.end {
        return Ok(());
    }
    let at = places.end + width(Section::End);
    if number(text, at) == places.lines {
        return Ok(());
    }
    Err(Fault {
        refusal: Refusal::EndNumberOther,
        place: at,
    })
}
