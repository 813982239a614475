// Where the lines of each kind begin in a text of the form.
ghost use Rattle.std.specs.Prelude.{List, ℕ, ◌≤◌, length};
ghost use Rattle.rules.specs.Names.{Spot};
ghost use Rattle.rules.specs.Texts.{Line, Sheet, OfForm};
ghost use Rattle.naming.specs.Words.{Rows};
ghost use Rattle.naming.specs.Sections.{key_of};
ghost use Rattle.faults.specs.Kinds.{Walks, Sectioned};

use crate::walks::Lines;
use naming::sections::{Section, next_line};

// How many lines there are, and the place behind them.
#[derive(Clone, Copy, Debug, PartialEq, Eq)]
pub struct Walked {
    pub lines: usize,
    pub to: usize,
}

// The lines of a kind from a place on.
pub fn walk(text: &[u8], section: Section, from: usize) -> Walked
    ensures few { result.lines ≤ length text.now }
    ensures is { (q : ℕ) (rows : List (Line (List Spot))) → Rows text.now (key_of section) from q rows
        → Walks q rows result }
{
    let mut walk = Lines::new(text, section, from);
    let mut lines = 0;
    // no `count`, since the place behind the lines is wanted too
    while walk.next().is_some() {
        lines += 1;
    }
    Walked {
        lines,
        to: walk.place,
    }
}

// Where the forbid lines, the need lines and the end line begin, and how many forbid and need lines there are.
#[derive(Clone, Copy, Debug, PartialEq, Eq)]
pub struct Places {
    pub forbids: usize,
    pub needs: usize,
    pub end: usize,
    pub lines: usize,
}

// Goes over the lines of a text once.
pub fn sections(text: &[u8]) -> Places
    ensures { (sheet : Sheet) (form : OfForm text.now sheet) → Sectioned text.now sheet form result }
{
    let from = next_line(text, Section::Columns, 0);
    let forbids = walk(text, Section::Forbid, from);
    let needs = walk(text, Section::Need, forbids.to);
    Places {
        forbids: from,
        needs: forbids.to,
        end: needs.to,
        lines: forbids.lines + needs.lines,
    }
}
