// The marks of the needs of a text.
ghost use Rattle.std.specs.Prelude.{List, ℕ, length};
ghost use Rattle.rules.specs.Phrases.{Formula};
ghost use Rattle.rules.specs.Texts.{Line};
ghost use Rattle.text.specs.Built.{NeedLines, Markable, MarksWritten};

use job::rows::END_MARK;
use naming::sections::{Section, key_stands, width};
use phrases::or_list;

// Writes the marks of the need lines from a place on, each need closed by its end mark, and says how many.
pub fn need_marks(text: &[u8], from: usize, marks: &mut [u16]) -> usize
    requires { Markable text.now from (length marks.old) }
    ensures { (q : ℕ) (lines : List (Line Formula)) → NeedLines text.now from q lines
        → MarksWritten text.now lines result marks.new }
{
    let before = width(Section::Need);
    let mut count = 0;
    let mut place = from;
    // a line begins where the reader of the one before stopped, so no iterator gives the places
    while key_stands(text, Section::Need, place) {
        let read = or_list(text, place + before, marks, count);
        let last = read.marked;
        marks[last] = END_MARK;
        count = last + 1;
        place = read.at + 1;
    }
    count
}
