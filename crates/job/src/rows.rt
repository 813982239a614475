// The needs laid out for evaluation: eight rows of 63 marks.
ghost use Rattle.std.specs.Prelude.{◌≡◌, ◌+◌, length, drop};
ghost use Rattle.rules.specs.Marks.{rows, before_end};
ghost use Rattle.job.specs.Rows.{row_of, rows_of};

use crate::copies;

// "Needs 0 to 8", and 32 column marks in a need with the joins between them are 63.
pub const MOST_NEEDS: usize = 8;

pub const MOST_NEED_MARKS: usize = 63;

// A mark below these is a column. Marks stay numbers, because C lends them as numbers and a need is a part of what is lent.
pub const AND_MARK: u16 = 16;

pub const OR_MARK: u16 = 17;

pub const END_MARK: u16 = 18;

// The place of the first end mark from a place on, or the length of the marks.
pub fn end_of_need(marks: &[u16], from: usize) -> usize
    ensures { result ≡ from + length (before_end (drop from marks.now)) }
{
    for at in from..marks.len() {
        if marks[at] == END_MARK {
            return at;
        }
    }
    from.max(marks.len())
}

// A need's marks in a row. A place without a mark holds the end mark.
fn row_of(need: &[u16]) -> [u16; MOST_NEED_MARKS]
    ensures { result ≡ row_of need.now }
{
    let mut row = [END_MARK; MOST_NEED_MARKS];
    copies::write(&mut row, need);
    row
}

// The needs that the marks stand for, each in its row, by value in fixed memory. Of any marks, as much as there is room for.
pub fn rows_of(marks: &[u16]) -> [[u16; MOST_NEED_MARKS]; MOST_NEEDS]
    ensures { result ≡ rows_of (rows marks.now) }
{
    let mut rows = [[END_MARK; MOST_NEED_MARKS]; MOST_NEEDS];
    let mut from = 0;
    for row in rows.iter_mut() {
        if marks.len() <= from {
            break;
        }
        let to = end_of_need(marks, from);
        *row = row_of(&marks[from..to]);
        from = to + 1;
    }
    rows
}
