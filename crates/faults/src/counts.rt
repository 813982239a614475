// Refusal 3: more columns, lines or names than there may be.
ghost use Rattle.std.specs.Prelude.{◌≡◌, List, ℕ};
ghost use Rattle.rules.specs.Options.{option_map};
ghost use Rattle.rules.specs.Numbers.{most_forbidden, most_needs};
ghost use Rattle.rules.specs.Refusals.{too_many_parts};
ghost use Rattle.rules.specs.Signs.{forbid_key, need_key};
ghost use Rattle.rules.specs.Names.{Spot};
ghost use Rattle.rules.specs.Texts.{Line, Sheet, OfForm};
ghost use Rattle.rules.specs.Sheets.{refusal, name_after, line_after, first_over};
ghost use Rattle.naming.specs.Words.{Words, Rows};
ghost use Rattle.faults.specs.Refused.{refusal_in};
ghost use Rattle.faults.specs.Kinds.{rows_over, Sectioned};

use crate::sections::Places;
use crate::walks::{Lines, Names};
use columns::ColumnSet;
use job::MOST_FORBIDDEN;
use job::fitness::MOST_COLUMN_MARKS;
use job::refusals::{Fault, Refusal};
use job::rows::MOST_NEEDS;
use naming::known::COLUMNS_FROM;
use naming::sections::{Section, width};

// Refused where there is one too many.
fn too_many(place: Option<usize>) -> Result<(), Fault>
    ensures { refusal_in result ≡ option_map (refusal too_many_parts) place }
{
    match place {
        Some(place) => Err(Fault {
            refusal: Refusal::TooMany,
            place,
        }),
        None => Ok(()),
    }
}

// The name after the first so many of a line.
fn name_over(text: &[u8], from: usize, most: usize) -> Result<(), Fault>
    ensures { (q : ℕ) (names : List Spot) → Words text.now from q names
        → refusal_in result ≡ option_map (refusal too_many_parts) (name_after most names) }
{
    too_many(Names::new(text, from).nth(most))
}

// The 33rd forbid line.
fn forbid_over(text: &[u8], from: usize) -> Result<(), Fault>
    ensures { (q : ℕ) (rows : List (Line (List Spot))) → Rows text.now forbid_key from q rows
        → refusal_in result ≡ option_map (refusal too_many_parts) (line_after most_forbidden rows) }
{
    too_many(Lines::new(text, Section::Forbid, from).nth(MOST_FORBIDDEN))
}

// The 33rd name of a need line, or the 9th need line.
fn need_over(text: &[u8], from: usize) -> Result<(), Fault>
    ensures { (q : ℕ) (rows : List (Line (List Spot))) → Rows text.now need_key from q rows
        → refusal_in result ≡ option_map (refusal too_many_parts) (rows_over most_needs rows) }
{
    let before = width(Section::Need);
    for (count, place) in Lines::new(text, Section::Need, from).enumerate() {
        if count == MOST_NEEDS {
            return too_many(Some(place));
        }
        name_over(text, place + before, MOST_COLUMN_MARKS)?;
    }
    Ok(())
}

// The first of all that is too many: a column, a forbid line, or a name or line of the needs.
pub fn over(text: &[u8], places: Places) -> Result<(), Fault>
    ensures { (sheet : Sheet) (form : OfForm text.now sheet) → Sectioned text.now sheet form places
        → refusal_in result ≡ option_map (refusal too_many_parts) (first_over sheet) }
{
    name_over(text, COLUMNS_FROM, ColumnSet::MOST_COLUMNS as usize)?;
    forbid_over(text, places.forbids)?;
    need_over(text, places.needs)
}
