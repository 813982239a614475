// Which numbers are unfit, by 01's list.
ghost use Rattle.std.specs.Prelude.{◌≡◌, position, cond, not, ◌||◌, ltb};
ghost use Rattle.rules.specs.Lists.{any_of};
ghost use Rattle.rules.specs.Marks.{and_mark};
ghost use Rattle.rules.specs.Numbers.{set_unfit, mark_unfit, need_unfit};
ghost use Rattle.job.specs.Findings.{need_count};

use crate::rows;
use crate::rows::{AND_MARK, END_MARK, MOST_NEEDS, OR_MARK};
use columns::ColumnSet;

// "Column marks in a need 1 to 32."
pub const MOST_COLUMN_MARKS: usize = 32;

// The first set that is empty or names a column that doesn't exist.
pub fn first_unfit_set(columns: u16, sets: &[u16]) -> Option<usize>
    ensures { result ≡ position (set_unfit columns) sets.now }
{
    sets.iter()
        .position(|set| set_unfit(columns, ColumnSet { bits: *set }))
}

fn set_unfit(columns: u16, set: ColumnSet) -> bool
    ensures { result ≡ set_unfit columns set.bits }
{
    set.is_empty() || !set.within(columns)
}

// Whether a mark is over 18 or names a missing column.
fn mark_unfit(columns: u16, mark: u16) -> bool
    ensures { result ≡ mark_unfit columns mark }
{
    END_MARK < mark || (mark < AND_MARK && columns <= mark)
}

// 1 for a column mark, 0 for any other.
fn column_marks(mark: u16) -> usize
    ensures { result ≡ cond (ltb mark and_mark) 1 0 }
{
    usize::from(mark < AND_MARK)
}

// Whether the marks of one need are fit.
fn need_fit(columns: u16, need: &[u16]) -> bool
    ensures { result ≡ not (need_unfit need.now || any_of (mark_unfit columns) need.now) }
{
    let mut operands: usize = 0;
    let mut named: usize = 0;
    for &mark in need {
        if mark_unfit(columns, mark) {
            return false;
        }
        if mark == AND_MARK || mark == OR_MARK {
            if operands < 2 {
                return false;
            }
            operands -= 1;
        } else {
            operands += 1;
        }
        named += column_marks(mark);
    }
    operands == 1 && named <= MOST_COLUMN_MARKS
}

// How many needs the marks are, if they are whole needs, each fit and closed by an end mark, and not over 8.
pub fn needs_fit(columns: u16, marks: &[u16]) -> Option<usize>
    ensures { result ≡ need_count columns marks.now }
{
    let mut count = 0;
    let mut from = 0;
    // from need to need: a step is as long as the need that was found, so there is no range to go over
    while from < marks.len() {
        let to = rows::end_of_need(marks, from);
        if to == marks.len() || count == MOST_NEEDS || !need_fit(columns, &marks[from..to]) {
            return None;
        }
        from = to + 1;
        count += 1;
    }
    Some(count)
}
