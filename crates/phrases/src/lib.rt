// The value of a need line, read into the need's marks: an or-list is and-lists joined by |, an and-list is items joined by &, an item is a name or
// an or-list in brackets. Joins of one kind group from the left, and a join's mark stands behind its operands.
#![tactic(auto)]

ghost use Rattle.std.specs.Prelude.{length};
ghost use Rattle.rules.specs.Phrases.{item as item_kind, list, ors, ands};
ghost use Rattle.phrases.specs.Readers.{Readable, Marked};

use job::rows::{AND_MARK, OR_MARK};
use naming::known::column_in;
use naming::signs::byte;
use naming::words::name_end;

// The place behind what was read, and how many marks stand then. The marks are a lent slice of any length, filled from the front, so their number goes
// from reader to reader beside it.
#[derive(Clone, Copy, Debug, PartialEq, Eq)]
pub struct Read {
    pub at: usize,
    pub marked: usize,
}

// Each reader is called where such a phrase stands, with room for its marks. The or-list, the and-list and the item are three readers that call each other
// in a cycle, as 01 names them: one reader of both kinds of list would need a fourth that chooses between a list and an item. A list goes on where its
// operand ended, so its loop is no walk over a range.
#[cycle(and_list_item_or_list)]
pub fn or_list(text: &[u8], at: usize, marks: &mut [u16], marked: usize) -> Read
    requires { Readable text.now (list ors) at marked (length marks.old) }
    ensures { Marked text.now (list ors) at marked marks.old result marks.new }
{
    let first = and_list(text, at, marks, marked);
    let mut place = first.at;
    let mut count = first.marked;
    while byte(text, place) == b'|' {
        let next = and_list(text, place + 1, marks, count);
        let last = next.marked;
        marks[last] = OR_MARK;
        place = next.at;
        count = last + 1;
    }
    Read {
        at: place,
        marked: count,
    }
}

#[cycle(and_list_item_or_list)]
fn and_list(text: &[u8], at: usize, marks: &mut [u16], marked: usize) -> Read
    requires { Readable text.now (list ands) at marked (length marks.old) }
    ensures { Marked text.now (list ands) at marked marks.old result marks.new }
{
    let first = item(text, at, marks, marked);
    let mut place = first.at;
    let mut count = first.marked;
    while byte(text, place) == b'&' {
        let next = item(text, place + 1, marks, count);
        let last = next.marked;
        marks[last] = AND_MARK;
        place = next.at;
        count = last + 1;
    }
    Read {
        at: place,
        marked: count,
    }
}

#[cycle(and_list_item_or_list)]
fn item(text: &[u8], at: usize, marks: &mut [u16], marked: usize) -> Read
    requires { Readable text.now item_kind at marked (length marks.old) }
    ensures { Marked text.now item_kind at marked marks.old result marks.new }
{
    if byte(text, at) == b'(' {
        let inner = or_list(text, at + 1, marks, marked);
        return Read {
            at: inner.at + 1,
            marked: inner.marked,
        };
    }
    marks[marked] = column_in(text, at);
    Read {
        at: name_end(text, at),
        marked: marked + 1,
    }
}
