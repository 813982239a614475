// The forbidden sets of a text.
ghost use Rattle.std.specs.Prelude.{◌≡◌, List, ℕ, ◌≤◌, length};
ghost use Rattle.rules.specs.Sets.{empty, most_columns};
ghost use Rattle.rules.specs.Signs.{forbid_key};
ghost use Rattle.rules.specs.Names.{Spot};
ghost use Rattle.rules.specs.Texts.{Line};
ghost use Rattle.rules.specs.Sheets.{set_with};
ghost use Rattle.naming.specs.Words.{Words, Rows, columns_from};
ghost use Rattle.text.specs.Built.{SetsWritten};

use columns::ColumnSet;
use faults::walks::{Lines, Names};
use naming::known::column_in;
use naming::sections::{Section, width};

// The columns that a line names from a place on.
fn set_of(text: &[u8], from: usize) -> u16
    ensures { (q to : ℕ) (columns names : List Spot) → Words text.now columns_from q columns → length columns ≤ most_columns
        → Words text.now from to names → result ≡ set_with columns empty names }
{
    let mut set = ColumnSet::EMPTY;
    for place in Names::new(text, from) {
        set = set.union(ColumnSet {
            bits: 1u16 << column_in(text, place),
        });
    }
    set.bits
}

// Writes the sets of the forbid lines from a place on over the first places of the slice, as far as there are places, and says how many.
pub fn forbidden_sets(text: &[u8], from: usize, sets: &mut [u16]) -> usize
    ensures { (q to : ℕ) (columns : List Spot) (rows : List (Line (List Spot))) → Words text.now columns_from q columns
        → length columns ≤ most_columns → Rows text.now forbid_key from to rows → length rows ≤ length sets.old
        → SetsWritten columns rows result sets.new }
{
    let before = width(Section::Forbid);
    let mut lines = Lines::new(text, Section::Forbid, from);
    for (count, set) in sets.iter_mut().enumerate() {
        let Some(place) = lines.next() else {
            return count;
        };
        *set = set_of(text, place + before);
    }
    sets.len()
}
