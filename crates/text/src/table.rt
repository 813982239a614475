// The names of the columns, in a table of 12 bytes for each.
ghost use Rattle.std.specs.Prelude.{◌≡◌, List, ◌++◌, ℕ, ◌+◌, ◌≤◌, length, take, drop};
ghost use Rattle.rules.specs.Lists.{written};
ghost use Rattle.rules.specs.Sets.{most_columns};
ghost use Rattle.rules.specs.Signs.{piece};
ghost use Rattle.rules.specs.Names.{Spot, Run, most_name_bytes};
ghost use Rattle.naming.specs.Words.{Words, columns_from};
ghost use Rattle.text.specs.Tables.{Tabled};

use columns::ColumnSet;
use faults::walks::Names;
use naming::known::COLUMNS_FROM;
use naming::words::{MOST_NAME_BYTES, name_at};

const MOST_COLUMNS: usize = ColumnSet::MOST_COLUMNS as usize;

// The names of 16 columns.
pub const NAMES: usize = 192;

// How many columns there are, and their names. Every place without a byte is 0. There is no heap, and all the bytes are handed out to C, so the names
// are an array with their number beside it.
#[derive(Clone, Copy)]
pub struct Table {
    pub columns: usize,
    pub names: [u8; NAMES],
}

// The name at a place of the text, written from a place of the table on.
fn put_name(names: &mut [u8], from: usize, text: &[u8], at: usize)
    requires { (from + most_name_bytes ≤ length names.old) × (at ≤ length text.now) }
    ensures { (p : ℕ) → Run text.now at p → p ≤ at + most_name_bytes
        → names.new ≡ take from names.old ++ written (piece text.now at p) (drop from names.old) }
{
    let name = name_at(text, at);
    // a name of a text of the form has no more bytes
    let count = name.len().min(MOST_NAME_BYTES);
    names[from..from + count].copy_from_slice(&name[..count]);
}

// The columns of a text that has no more than 16.
pub fn name_table(text: &[u8]) -> Table
    ensures { (q : ℕ) (columns : List Spot) → Words text.now columns_from q columns → length columns ≤ most_columns
        → Tabled columns result }
{
    let mut names = [0u8; NAMES];
    let mut places = Names::new(text, COLUMNS_FROM);
    for columns in 0..MOST_COLUMNS {
        let Some(place) = places.next() else {
            return Table { columns, names };
        };
        put_name(&mut names, MOST_NAME_BYTES * columns, text, place);
    }
    Table {
        columns: MOST_COLUMNS,
        names,
    }
}
