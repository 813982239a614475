// The cases of an input, one a line: a name, a colon and a blank, then the spelling of a text up to the line's end.
ghost use Rattle.std.specs.Prelude.{◌≡◌, ◌<◌, ◌≤◌, ◌==◌, IfSome, length, drop};
ghost use Rattle.std.specs.Iterator.{at_most};
ghost use Rattle.std.specs.List.{position};
ghost use Rattle.spelt.specs.Walks.{before, Begins, GivesCase};

// A case. Its spelling ends with the line, but may have more behind it.
#[derive(Clone, Copy)]
pub struct Case<'a> {
    pub name: &'a [u8],
    pub spelling: &'a [u8],
}

impl<'a> Case<'a> {
    // The case at the begin of the lines that are left.
    fn first(lines: &'a [u8]) -> Self
        ensures { Begins lines.now result }
    {
        let colon = length_before(b':', lines);
        Self {
            name: &lines[..colon],
            spelling: behind(lines, colon + 2),
        }
    }
}

// How many bytes stand before the first that is this one, or all where none is.
fn length_before(byte: u8, bytes: &[u8]) -> usize
    ensures place { result ≡ before byte bytes.now }
    ensures inside { result ≤ length bytes.now }
{
    first_of(byte, bytes).unwrap_or(bytes.len())
}

// The place of the first that is this one.
fn first_of(byte: u8, bytes: &[u8]) -> Option<usize>
    ensures place { result ≡ position (λ other. other == byte) bytes.now }
    ensures inside { IfSome result (λ place. place < length bytes.now) }
{
    bytes.iter().position(|other| *other == byte)
}

// What stands from a place on, which may lie behind the end.
fn behind(bytes: &[u8], place: usize) -> &[u8]
    ensures { result.now ≡ drop place bytes.now }
{
    bytes.get(place..).unwrap_or(&[])
}

// The cases on the lines that are left.
#[derive(Drop)]
pub struct Cases<'a> {
    lines: &'a [u8],
}

impl<'a> Cases<'a> {
    pub fn new(lines: &'a [u8]) -> Self
        ensures { result.lines.now ≡ lines.now }
    {
        Self { lines }
    }
}

impl<'a> Iterator for Cases<'a> {
    type Item = Case<'a>;

    ghost next_gives = { GivesCase };

    ghost remaining = { λ s. at_most (length s.lines.now) };

    fn next(&mut self) -> Option<Case<'a>> {
        let lines = self.lines;
        if lines.is_empty() {
            return None;
        }
        self.lines = behind(lines, length_before(b'\n', lines) + 1);
        Some(Case::first(lines))
    }
}
