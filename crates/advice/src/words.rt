// The words for what there is too many of.
ghost use Rattle.std.specs.Prelude.{◌≡◌};
ghost use Rattle.rules.specs.Signs.{bytes};
ghost use Rattle.advice.specs.Positions.{position_in};
ghost use Rattle.advice.specs.Sentences.{too_many_words};

use crate::position::Spot;
use naming::sections::{Section, key_stands};

// What there is too many of, and what to do. Columns stand in the first line, and at the beginning of another line the line itself is too many.
pub fn too_many_words(spot: Spot) -> &'static [u8]
    ensures { result.now ≡ bytes (too_many_words spot.entry.text.now spot.entry.place (position_in spot.entry.position)) }
{
    let Spot {
        text,
        place,
        position,
    } = spot;
    if position.line == 1 {
        return b"this is the 17th column, and 16 are the most; leave out a column that no line names.\n";
    }
    if position.column != 1 {
        return b"this is the 33rd name in the need, and 32 are the most; write the need shorter.\n";
    }
    if key_stands(text, Section::Forbid, place) {
        return b"this is the 33rd forbid line, and 32 are the most; leave out one that has all columns of another.\n";
    }
    b"this is the 9th need line, and 8 are the most; leave out one that is met wherever another is.\n"
}
