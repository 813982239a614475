// The first fault of a text that is of the form: too many of something, a name twice or unknown, or another number at the end.
#![tactic(auto)]

pub mod sections; // sections.rt: where the lines of each kind begin
pub mod walks; // walks.rt: the places of names and of lines
mod counts; // counts.rt: more than there may be
mod names; // names.rt: names at fault
mod ended; // ended.rt: the number at the end

ghost use Rattle.std.specs.Prelude.{◌≡◌};
ghost use Rattle.rules.specs.Texts.{Sheet, OfForm};
ghost use Rattle.rules.specs.Sheets.{sheet_fault};
ghost use Rattle.faults.specs.Refused.{refusal_in};

use job::refusals::Fault;

// Of a text of the form: refusal 3, else 4 or 5, else 6, or none.
pub fn first_fault(text: &[u8]) -> Result<(), Fault>
    ensures { (sheet : Sheet) → OfForm text.now sheet → refusal_in result ≡ sheet_fault sheet }
{
    let places = sections::sections(text);
    counts::over(text, places)?;
    names::names_fault(text, places)?;
    ended::end_fault(text, places)
}
