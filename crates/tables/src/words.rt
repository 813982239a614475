// Tables of a bit for each set: a word for each block of 64 sets. That a table has no more words than there are blocks is asked by each function: a slice's
// type doesn't say how long it is, and a type around it would be made and opened at one place.
ghost use Rattle.std.specs.Prelude.{◌≡◌, true, not, ℕ, ◌%◌, ◌<◌, ◌≤◌, min, length};
ghost use Rattle.rules.specs.Options.{Some};
ghost use Rattle.rules.specs.Lists.{any_of};
ghost use Rattle.rules.specs.Sets.{has, contains};
ghost use Rattle.rules.specs.Needs.{Need, meets};
ghost use Rattle.rules.specs.Marks.{need_of, before_end};
ghost use Rattle.tables.specs.Tables.{blocks, all_blocks, Tells, Narrows};

use crate::ALL_BLOCKS;
use columns::ColumnSet;
use job::rows::MOST_NEED_MARKS;

// How many blocks the sets of so many columns are, and never more than those of 16.
pub fn block_count(columns: u16) -> usize
    ensures is { result ≡ blocks (min columns 16) }
    ensures few { result ≤ all_blocks }
{
    if columns <= 6 {
        1
    } else if columns < 16 {
        1usize << (columns - 6)
    } else {
        ALL_BLOCKS
    }
}

// Every set is in the table.
pub fn hold(table: &mut [u64])
    ensures { Tells (length table.old) (λ s. true) table.new }
{
    table.fill(u64::MAX);
}

// The sets that meet the need of a row are in the table.
pub fn meet(row: &[u16; MOST_NEED_MARKS], table: &mut [u64])
    requires { length table.old ≤ all_blocks }
    ensures { (v : Need) → need_of (before_end row.now) ≡ Some v → Tells (length table.old) (meets v) table.new }
{
    for (block, word) in table.iter_mut().enumerate() {
        *word = needs::met_lanes(row, block as u16);
    }
}

// Which lanes have the first six columns of a set.
fn low_lanes(set: ColumnSet) -> u64
    ensures { (lane : ℕ) → lane < 64 → has lane result ≡ contains lane (set.bits % 64) }
{
    let mut lanes = u64::MAX;
    for column in 0..6 {
        if set.has(column) {
            lanes &= needs::column_lanes(column, 0);
        }
    }
    lanes
}

// The sets that contain the forbidden set are taken out of the table.
fn forbid(set: ColumnSet, table: &mut [u64])
    requires { length table.old ≤ all_blocks }
    ensures { Narrows (length table.old) (λ s. not (contains s set.bits)) table.old table.new }
{
    let low = low_lanes(set);
    let high = ColumnSet {
        bits: set.bits / 64,
    };
    for (block, word) in table.iter_mut().enumerate() {
        if (ColumnSet { bits: block as u16 }).contains(high) {
            *word &= !low;
        }
    }
}

// The sets that contain a forbidden set are taken out of the table.
pub fn forbid_all(forbidden: &[u16], table: &mut [u64])
    requires { length table.old ≤ all_blocks }
    ensures { Narrows (length table.old) (λ s. not (any_of (contains s) forbidden.now)) table.old table.new }
{
    for set in forbidden {
        forbid(ColumnSet { bits: *set }, table);
    }
}
