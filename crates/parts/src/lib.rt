// Two tables beside the one of gains: what the sets within a set gain together, so that a search sees early where nothing can come of it; and
// the gains of those sets alone that have no column too many, so that it tries no others.
#![tactic(auto)]

ghost use Rattle.std.specs.Prelude.{◌≡◌, ◌&&◌, ◌≤◌, ◌<◌, ◌^◌, eqb};
ghost use Rattle.rules.specs.Sets.{most_columns, has, without, full};
ghost use Rattle.parts.specs.Parts.{in_table, Gathers, Leans, Tabled};

use columns::{ALL_SETS, ColumnSet};

// The set without one column; a column that it doesn't have changes nothing.
fn without_column(set: ColumnSet, column: u16) -> ColumnSet
    requires { column < most_columns }
    ensures { result.bits ≡ without set.bits (2 ^ column) }
{
    set.without(ColumnSet {
        bits: 1u16 << column,
    })
}

// What the set gains, with all that is possible where one of its columns is taken away.
fn possible_within(gains: &[u8; ALL_SETS], possible: &[u8; ALL_SETS], set: ColumnSet) -> u8
    ensures { Gathers (in_table gains.now) (in_table possible.now) most_columns set.bits result }
{
    let mut all = gains[set.bits as usize];
    for column in 0..ColumnSet::MOST_COLUMNS {
        all |= possible[without_column(set, column).bits as usize];
    }
    all
}

// Whether the set has the column and gains the same without it.
fn spared(gains: &[u8; ALL_SETS], set: ColumnSet, column: u16) -> bool
    requires { column < most_columns }
    ensures { result ≡ (has column set.bits
        && eqb (in_table gains.now (without set.bits (2 ^ column))) (in_table gains.now set.bits)) }
{
    set.has(column) && gains[without_column(set, column).bits as usize] == gains[set.bits as usize]
}

// What the set gains, or 0 if it gains as much without one of its columns.
fn lean_gain(gains: &[u8; ALL_SETS], set: ColumnSet) -> u8
    ensures { Leans (in_table gains.now) set.bits result }
{
    let gained = gains[set.bits as usize];
    if gained != 0 && (0..ColumnSet::MOST_COLUMNS).any(|column| spared(gains, set, column)) {
        0
    } else {
        gained
    }
}

// Fills both tables for all sets of the columns, rising, so that a set's parts come before it.
pub fn fill(
    gains: &[u8; ALL_SETS],
    columns: u16,
    lean: &mut [u8; ALL_SETS],
    possible: &mut [u8; ALL_SETS],
)
    requires { (columns ≤ 16) × (in_table gains.now 0 ≡ 0) }
    ensures { Tabled (in_table gains.now) (in_table lean.new) (in_table possible.new) (full columns) }
{
    for s in 0..1usize << columns {
        let set = ColumnSet { bits: s as u16 };
        lean[s] = lean_gain(gains, set);
        possible[s] = possible_within(gains, possible, set);
    }
}
