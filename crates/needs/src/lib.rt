// A need, as a row of marks, evaluated on sets of columns: on 64 sets at once, each a bit of a word, or on one.
#![tactic(auto)]

ghost use Rattle.std.specs.Prelude.{◌≡◌};
ghost use Rattle.rules.specs.Options.{Some};
ghost use Rattle.rules.specs.Sets.{has};
ghost use Rattle.rules.specs.Needs.{Need, meets};
ghost use Rattle.rules.specs.Marks.{need_of, before_end};
ghost use Rattle.needs.specs.Lanes.{Lanes, joined_word};

use columns::ColumnSet;
use job::rows::{AND_MARK, END_MARK, MOST_NEED_MARKS, OR_MARK};

// Which of the 64 sets of any block have column 0, 1, .. 5: these columns are the lane's own bits.
const LOW_COLUMNS: [u64; 6] = [
    0xAAAA_AAAA_AAAA_AAAA,
    0xCCCC_CCCC_CCCC_CCCC,
    0xF0F0_F0F0_F0F0_F0F0,
    0xFF00_FF00_FF00_FF00,
    0xFFFF_0000_FFFF_0000,
    0xFFFF_FFFF_0000_0000,
];

// Which sets of a block have the column.
pub fn column_lanes(column: u16, block: u16) -> u64
    ensures { Lanes block (has column) result }
{
    if column < 6 {
        LOW_COLUMNS[column as usize]
    } else if (ColumnSet { bits: block }).has(column - 6) {
        u64::MAX
    } else {
        0
    }
}

// Which sets of a block meet the need of a row. The row's marks end at its first end mark or after 63.
// A row that is no need gets some word: no join reaches below the first operand.
pub fn met_lanes(row: &[u16; MOST_NEED_MARKS], block: u16) -> u64
    ensures { (v : Need) → need_of (before_end row.now) ≡ Some v → Lanes block (meets v) result }
{
    // The operands stand in fixed memory, of which so many words are in use. As fields of a struct the words and their count take this loop a third longer.
    let mut operands = [0u64; MOST_NEED_MARKS];
    let mut count = 0;
    for &mark in row {
        match mark {
            END_MARK => break,
            AND_MARK | OR_MARK => {
                if 1 < count {
                    operands[count - 2] = joined(mark, operands[count - 2], operands[count - 1]);
                    count -= 1;
                }
            }
            column => {
                operands[count] = column_lanes(column, block);
                count += 1;
            }
        }
    }
    operands[0]
}

// Two operands joined, lane by lane.
fn joined(mark: u16, left: u64, right: u64) -> u64
    ensures { result ≡ joined_word mark left right }
{
    if mark == AND_MARK {
        left & right
    } else {
        left | right
    }
}

// Whether one set meets the need of a row.
pub fn meets(row: &[u16; MOST_NEED_MARKS], set: u16) -> bool
    ensures { (v : Need) → need_of (before_end row.now) ≡ Some v → result ≡ meets v set }
{
    (met_lanes(row, set / 64) >> (set % 64)) % 2 == 1
}
