// Which column a name is. That the columns are names and no more than 16 is a premise of the clauses and in no type, because any text may come.
ghost use Rattle.std.specs.Prelude.{◌≡◌, List, ℕ, ◌<◌, ◌≤◌, length, IfSome};
ghost use Rattle.rules.specs.Sets.{most_columns};
ghost use Rattle.rules.specs.Signs.{piece};
ghost use Rattle.rules.specs.Names.{Spot, spot, Run};
ghost use Rattle.rules.specs.Sheets.{column_named, column_in};
ghost use Rattle.naming.specs.Words.{Words, columns_from};

use crate::signs::{byte, in_name};
use crate::words::{name_end, next_name, same};
use columns::ColumnSet;

// The names of the columns stand behind `columns=`. A constant, so that the columns are read without a look at the key.
pub const COLUMNS_FROM: usize = 8;

// The column that the name at a place is, if it is one.
pub fn column_of(text: &[u8], at: usize) -> Option<u16>
    ensures few { IfSome result (λ column. column < most_columns) }
    ensures is { (p q : ℕ) (columns : List Spot) → Words text.now columns_from q columns → length columns ≤ most_columns
        → Run text.now at p → result ≡ column_named columns (piece text.now at p) }
{
    // the place goes on from name to name beside the column
    let mut place = next_name(text, COLUMNS_FROM);
    for column in 0..ColumnSet::MOST_COLUMNS {
        if !in_name(byte(text, place)) {
            return None;
        }
        if same(text, place, at) {
            return Some(column);
        }
        place = next_name(text, name_end(text, place));
    }
    None
}

// The same, but 0 if it is none.
pub fn column_in(text: &[u8], at: usize) -> u16
    ensures few { result < most_columns }
    ensures is { (p q : ℕ) (columns : List Spot) → Words text.now columns_from q columns → length columns ≤ most_columns
        → Run text.now at p → result ≡ column_in columns (spot text.now at p) }
{
    column_of(text, at).unwrap_or(0)
}
