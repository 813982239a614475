// The sections of a job text: its kinds of lines, each told by the key that its lines begin with.
ghost use Rattle.std.specs.Prelude.{◌≡◌, true, false, ◌&&◌, List, ℕ, ◌+◌, ◌<◌, ◌≤◌, length};
ghost use Rattle.rules.specs.Signs.{byte_at, Says, says_at};
ghost use Rattle.rules.specs.Names.{Spot};
ghost use Rattle.naming.specs.Words.{Words};
ghost use Rattle.naming.specs.Sections.{key_of, width_of, counted, counted_at};

use crate::signs::{byte, stands};
use crate::words::line_end;

#[derive(Clone, Copy, Debug, PartialEq, Eq)]
pub enum Section {
    Columns,
    Forbid,
    Need,
    End,
}

impl Section {
    // All of them, in their order.
    pub const ALL: [Section; 4] = [
        Section::Columns,
        Section::Forbid,
        Section::Need,
        Section::End,
    ];
}

// The bytes that its lines begin with.
fn key(section: Section) -> &'static [u8]
    ensures { result.now ≡ key_of section }
{
    match section {
        Section::Columns => b"columns=",
        Section::Forbid => b"forbid=",
        Section::Need => b"need=",
        Section::End => b"end=",
    }
}

// How many they are: so many bytes stand before the value of its lines.
pub fn width(section: Section) -> usize
    ensures { result ≡ width_of section }
{
    key(section).len()
}

// The byte at a place of its key; 0 past the end.
pub fn key_byte(section: Section, at: usize) -> u8
    ensures { result ≡ byte_at (key_of section) at }
{
    byte(key(section), at)
}

// Whether a line of the section begins at a place.
pub fn key_stands(text: &[u8], section: Section, at: usize) -> bool
    ensures there { result ≡ true → Says text.now at (key_of section) }
    ensures missing { result ≡ false → Says text.now at (key_of section) → ⊥ }
{
    stands(text, at, key(section))
}

// The place behind the line of the section that begins at a place.
pub fn next_line(text: &[u8], section: Section, at: usize) -> usize
    requires { at ≤ length text.now }
    ensures later { at < result }
    ensures is { (q : ℕ) (names : List Spot) → Words text.now (at + width_of section) q names → result ≡ q + 1 }
{
    let value = at + width(section);
    // so that the sum can't overflow; never so in a text of the form
    if text.len() < value {
        return value;
    }
    line_end(text, value) + 1
}

// Whether the number at the end counts its lines.
pub fn counts(section: Section) -> bool
    ensures { result ≡ counted section }
{
    matches!(section, Section::Forbid | Section::Need)
}

// Whether the key of a section whose lines it counts stands at a place.
#[tactic(auto, unfolding(crate::specs::Sections::counted_at, rules::specs::Lists::any_of))]
pub fn counted_at(text: &[u8], at: usize) -> bool
    ensures { result ≡ counted_at text.now at }
{
    Section::ALL
        .iter()
        .any(|section| counted_by(text, *section, at))
}

// Whether the number at the end counts the lines of this section, and its key stands at a place.
fn counted_by(text: &[u8], section: Section, at: usize) -> bool
    ensures { result ≡ (counted section && says_at text.now at (key_of section)) }
{
    counts(section) && key_stands(text, section, at)
}
