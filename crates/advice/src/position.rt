// Where a place of a text is for a person who looks at it.
ghost use Rattle.std.specs.Prelude.{◌≡◌};
ghost use Rattle.rules.specs.Positions.{position_of};
ghost use Rattle.advice.specs.Positions.{position_in};

use naming::signs::LINE_END;

// The line, and the byte in the line, both counted from 1.
#[derive(Clone, Copy, Debug, PartialEq, Eq)]
pub struct Position {
    pub line: usize,
    pub column: usize,
}

// A place of a text, with its position.
#[derive(Clone, Copy)]
pub struct Spot<'a> {
    pub text: &'a [u8],
    pub place: usize,
    pub position: Position,
}

// The position of a place; a place past the end is the end.
pub fn position_of(text: &[u8], place: usize) -> Position
    ensures { position_in result ≡ position_of text.now place }
{
    let before = &text[..place.min(text.len())];
    let mut position = Position { line: 1, column: 1 };
    for sign in before {
        if *sign == LINE_END {
            position.line += 1;
            position.column = 1;
        } else {
            position.column += 1;
        }
    }
    position
}
