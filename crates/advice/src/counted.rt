// How many lines the number at the end of a text has to count.
ghost use Rattle.std.specs.Prelude.{◌≡◌};
ghost use Rattle.rules.specs.Positions.{line_begins};
ghost use Rattle.advice.specs.CountedLines.{counted_lines};

use naming::sections::counted_at;
use naming::signs::{LINE_END, byte};

// Looks at the beginning of each line, also where the text is not of the form.
pub fn counted_lines(text: &[u8]) -> usize
    ensures { result ≡ counted_lines text.now }
{
    (0..text.len())
        .filter(|place| line_begins(text, *place) && counted_at(text, *place))
        .count()
}

// Whether a line begins at a place: at the first one, and right behind each line's end.
#[tactic(auto, unfolding(rules::specs::Positions::line_begins))]
fn line_begins(text: &[u8], place: usize) -> bool
    ensures { result ≡ line_begins text.now place }
{
    place == 0 || byte(text, place - 1) == LINE_END
}
