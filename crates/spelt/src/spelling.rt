// How a case spells its text. `\n` is LF, `\r` is CR, `\xHH` is the byte with this number, and `\{unit\}33;` stands for 33 units.
ghost use Rattle.std.specs.Prelude.{◌<◌, ◌≤◌, length};
ghost use Rattle.std.specs.Slice.Iter.{iter_rest};

use crate::draft::Draft;
use std::slice::Iter;

// The text of a spelling, which ends at a line end.
pub fn spell(spelling: &[u8]) -> Draft {
    let mut text = Draft::new();
    let mut unit = 0;
    let mut signs = spelling.iter();
    while let Some(sign) = signs.next() {
        match sign {
            b'\n' => break,
            b'\\' => escaped(&mut signs, &mut text, &mut unit),
            _ => text.put(*sign),
        }
    }
    text
}

// What stands behind a backslash. A unit ends where the text ends, and begins where the last begin of one was.
fn escaped(signs: &mut Iter<'_, u8>, text: &mut Draft, unit: &mut usize)
    ensures { length (iter_rest signs.new) ≤ length (iter_rest signs.old) }
{
    match next(signs) {
        b'{' => *unit = text.as_bytes().len(),
        b'}' => text.repeat(*unit, decimal(signs)),
        b'x' => text.put(16 * hex(next(signs)) + hex(next(signs))),
        b'n' => text.put(b'\n'),
        _ => text.put(b'\r'),
    }
}

// The next sign, or 0 where there is none.
fn next(signs: &mut Iter<'_, u8>) -> u8
    ensures { length (iter_rest signs.new) ≤ length (iter_rest signs.old) }
{
    signs.next().copied().unwrap_or(0)
}

// What a digit of a byte's number is worth.
fn hex(digit: u8) -> u8
    ensures { result < 16 }
{
    if digit < b'a' {
        digit % 16
    } else {
        (digit - b'a' + 10) % 16
    }
}

// A number, of which the last four digits count, up to the semicolon that ends it.
fn decimal(signs: &mut Iter<'_, u8>) -> usize
    ensures { length (iter_rest signs.new) ≤ length (iter_rest signs.old) }
{
    let mut value = 0;
    while let Some(sign) = signs.next()
        && *sign != b';'
    {
        value = (10 * (value % 1000) + usize::from(*sign % 16)) % 10000;
    }
    value
}
