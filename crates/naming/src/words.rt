// The names of a line, one after the other. A text and a place stay two parameters, since each caller has a place of its own at each step, in a text that it
// holds anyway.
ghost use Rattle.std.specs.Prelude.{◌≡◌, true, false, List, ℕ, ◌≤◌, ◌-◌, length};
ghost use Rattle.rules.specs.Signs.{byte_at, piece, in_name};
ghost use Rattle.rules.specs.Names.{Spot, spot, Run, name_at, same_name};
ghost use Rattle.rules.specs.Sheets.{stands_in};
ghost use Rattle.naming.specs.Words.{Skips, Ends, Between};

use crate::signs::{LINE_END, byte, bytes_from, in_name, is_sign};

// "Names 1 to 12 bytes."
pub const MOST_NAME_BYTES: usize = 12;

// The letters and digits from a place on.
pub fn name_at(text: &[u8], at: usize) -> &[u8]
    ensures is { result.now ≡ name_at text.now at }
    ensures within { length result.now ≤ length text.now - at }
{
    let rest = bytes_from(text, at);
    let many = rest.iter().take_while(|sign| in_name(**sign)).count();
    &rest[..many]
}

// The place behind them.
pub fn name_end(text: &[u8], at: usize) -> usize
    ensures { Run text.now at result }
{
    at + name_at(text, at).len()
}

// The place of the next name of a line from a place on, or of the line's end.
pub fn next_name(text: &[u8], at: usize) -> usize
    ensures { Skips text.now at result }
{
    at + bytes_from(text, at)
        .iter()
        .take_while(|sign| is_sign(**sign))
        .count()
}

// The place of the line's end from a place on.
pub fn line_end(text: &[u8], at: usize) -> usize
    ensures { Ends text.now at result }
{
    at + bytes_from(text, at)
        .iter()
        .take_while(|sign| **sign != LINE_END)
        .count()
}

// Whether the names at two places are the same. They are compared byte by byte and not as two slices: looking for the ends of both first made
// reading a text take two thirds longer.
pub fn same(text: &[u8], one: usize, other: usize) -> bool
    ensures { (p q : ℕ) → Run text.now one p → Run text.now other q
        → result ≡ same_name (piece text.now one p) (piece text.now other q) }
{
    let rest = bytes_from(text, one);
    for (i, sign) in rest.iter().enumerate() {
        if !in_name(*sign) {
            return !in_name(byte(text, other + i));
        }
        if *sign != byte(text, other + i) {
            return false;
        }
    }
    !in_name(byte(text, other + rest.len()))
}

// Whether the name at a place stands among the names from another place on before it.
pub fn stands_before(text: &[u8], from: usize, at: usize) -> bool
    ensures { (p : ℕ) (before : List Spot) → Between text.now from at before → in_name (byte_at text.now at) ≡ true
        → Run text.now at p → result ≡ stands_in before (spot text.now at p) }
{
    let mut place = next_name(text, from);
    // the place goes on from name to name, so no index is counted; a chain over the names would have to stop by hand too, at the name itself
    while place < at {
        if !in_name(byte(text, place)) {
            return false;
        }
        if same(text, place, at) {
            return true;
        }
        place = next_name(text, name_end(text, place));
    }
    false
}
