// Refusals 4 and 5: a name twice where it may stand once, and a name that is no column.
ghost use Rattle.std.specs.Prelude.{◌≡◌, true, List, [], map, ℕ, ◌≤◌, length};
ghost use Rattle.rules.specs.Options.{option_map};
ghost use Rattle.rules.specs.Sets.{most_columns};
ghost use Rattle.rules.specs.Signs.{byte_at, in_name};
ghost use Rattle.rules.specs.Names.{Spot, spot, Run};
ghost use Rattle.rules.specs.Texts.{Line, Sheet, OfForm};
ghost use Rattle.rules.specs.Sheets.{refusal, column_fault, need_fault, first_name_fault, lines_fault, names_fault};
ghost use Rattle.naming.specs.Words.{Between, Words, Rows, columns_from};
ghost use Rattle.naming.specs.Sections.{key_of};
ghost use Rattle.faults.specs.Refused.{refusal_in};
ghost use Rattle.faults.specs.Kinds.{fault_by, Sectioned};

use crate::sections::Places;
use crate::walks::{Lines, Names};
use job::refusals::{Fault, Refusal};
use naming::known::{COLUMNS_FROM, column_of};
use naming::sections::{Section, width};
use naming::words::stands_before;

// Refused where the name stands before in its line.
fn repeated(text: &[u8], from: usize, at: usize) -> Result<(), Fault>
    ensures { (p : ℕ) (before : List Spot) → Between text.now from at before → in_name (byte_at text.now at) ≡ true
        → Run text.now at p → refusal_in result ≡ option_map (λ number. refusal number at) (column_fault before (spot text.now at p)) }
{
    if stands_before(text, from, at) {
        Err(Fault {
            refusal: Refusal::NameTwice,
            place: at,
        })
    } else {
        Ok(())
    }
}

// Refused where the name is no column.
fn unknown(text: &[u8], at: usize) -> Result<(), Fault>
    ensures { (p q : ℕ) (columns before : List Spot) → Words text.now columns_from q columns → length columns ≤ most_columns
        → Run text.now at p → refusal_in result ≡ option_map (λ number. refusal number at) (need_fault columns before (spot text.now at p)) }
{
    match column_of(text, at) {
        Some(_) => Ok(()),
        None => Err(Fault {
            refusal: Refusal::NameUnknown,
            place: at,
        }),
    }
}

// Refused where a name in a line of this kind is at fault. A test for each kind would be chosen by the same match.
fn fault_of(text: &[u8], section: Section, from: usize, at: usize) -> Result<(), Fault>
    ensures { (p q : ℕ) (columns before : List Spot) → Words text.now columns_from q columns → length columns ≤ most_columns
        → Between text.now from at before → in_name (byte_at text.now at) ≡ true → Run text.now at p
        → refusal_in result ≡ option_map (λ number. refusal number at) (fault_by section columns before (spot text.now at p)) }
{
    match section {
        Section::Columns => repeated(text, from, at),
        Section::Need => unknown(text, at),
        Section::Forbid => {
            unknown(text, at)?;
            repeated(text, from, at)
        }
        // no names stand behind its key
        Section::End => Ok(()),
    }
}

// The first name at fault in a line, whose names stand from a place on.
fn line_fault(text: &[u8], section: Section, from: usize) -> Result<(), Fault>
    ensures { (q to : ℕ) (columns names : List Spot) → Words text.now columns_from q columns → length columns ≤ most_columns
        → Words text.now from to names → refusal_in result ≡ first_name_fault (fault_by section columns) [] names }
{
    for place in Names::new(text, from) {
        fault_of(text, section, from, place)?;
    }
    Ok(())
}

// The first name at fault in the lines of a kind from a place on.
fn lines_fault(text: &[u8], section: Section, from: usize) -> Result<(), Fault>
    ensures { (q to : ℕ) (columns : List Spot) (rows : List (Line (List Spot))) → Words text.now columns_from q columns
        → length columns ≤ most_columns → Rows text.now (key_of section) from to rows
        → refusal_in result ≡ lines_fault (fault_by section columns) (map (λ l. l.value) rows) }
{
    let before = width(section);
    for place in Lines::new(text, section, from) {
        line_fault(text, section, place + before)?;
    }
    Ok(())
}

// The first name at fault in a text with no more than 16 columns.
pub fn names_fault(text: &[u8], places: Places) -> Result<(), Fault>
    ensures { (sheet : Sheet) (form : OfForm text.now sheet) → Sectioned text.now sheet form places
        → length sheet.columns ≤ most_columns → refusal_in result ≡ names_fault sheet }
{
    line_fault(text, Section::Columns, COLUMNS_FROM)?;
    lines_fault(text, Section::Forbid, places.forbids)?;
    lines_fault(text, Section::Need, places.needs)
}
