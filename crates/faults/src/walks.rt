// Walks over a text: the names of a line, and the lines of a section. One is told by a byte and goes on past signs, the other by a key and goes on past a
// line; what they share is the trait Iterator.
ghost use Rattle.std.specs.Prelude.{◌-◌, length};
ghost use Rattle.std.specs.Iterator.{at_most};
ghost use Rattle.faults.specs.Walks.{NamesFrom, GivesName, LinesFrom, GivesLine};

use naming::sections::{Section, key_stands, next_line};
use naming::signs::{byte, in_name};
use naming::words::{name_end, next_name};

// The places of the names of a line, one after the other.
#[derive(Clone, Copy)]
pub struct Names<'a> {
    text: &'a [u8],
    place: usize,
}

impl<'a> Names<'a> {
    // Those that stand from a place on.
    pub fn new(text: &'a [u8], from: usize) -> Names<'a>
        ensures { NamesFrom text.now from result }
    {
        Names {
            text,
            place: next_name(text, from),
        }
    }
}

impl<'a> Iterator for Names<'a> {
    type Item = usize;

    ghost next_gives = { GivesName };

    ghost remaining = { λ walk. at_most (length walk.text.now - walk.place) };

    fn next(&mut self) -> Option<usize> {
        let at = self.place;
        if !in_name(byte(self.text, at)) {
            return None;
        }
        self.place = next_name(self.text, name_end(self.text, at));
        Some(at)
    }
}

// The places of the lines of a section, one after the other.
#[derive(Clone, Copy)]
pub struct Lines<'a> {
    text: &'a [u8],
    section: Section,
    pub(crate) place: usize,
}

impl<'a> Lines<'a> {
    // Those that stand from a place on.
    pub fn new(text: &'a [u8], section: Section, from: usize) -> Lines<'a>
        ensures { LinesFrom text.now section from result }
    {
        Lines {
            text,
            section,
            place: from,
        }
    }
}

impl<'a> Iterator for Lines<'a> {
    type Item = usize;

    ghost next_gives = { GivesLine };

    ghost remaining = { λ walk. at_most (length walk.text.now - walk.place) };

    fn next(&mut self) -> Option<usize> {
        let at = self.place;
        if !key_stands(self.text, self.section, at) {
            return None;
        }
        self.place = next_line(self.text, self.section, at);
        Some(at)
    }
}
