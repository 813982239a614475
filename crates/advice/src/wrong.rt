// What is wrong where a text stops being of the form.
ghost use Rattle.std.specs.Prelude.{◌≡◌, ◌||◌, ◌<◌, ◌≤◌, length, take};
ghost use Rattle.rules.specs.Signs.{in_name, bytes};
ghost use Rattle.advice.specs.Sentences.{joining as joining_byte, in_key, name_full, open_after, wrong_sign, wrong_at, words_for};

use naming::signs::{LINE_END, MOST_BRACKETS, digit, in_name};
use naming::words::MOST_NAME_BYTES;

#[derive(Clone, Copy, Debug, PartialEq, Eq)]
pub enum Wrong {
    EndsEarly,
    CarriageReturn,
    Blank,
    EmptyLine,
    LineEndsEarly,
    Capital,
    Foreign,
    NoSuchLine,
    LongName,
    DeepBracket,
    DigitFirst,
    Misplaced,
}

impl Wrong {
    // What is wrong, and what to do.
    pub fn words(self) -> &'static [u8]
        ensures { result.now ≡ bytes (words_for self) }
    {
        match self {
            Wrong::EndsEarly =>
                b"the text ends too early; the last line is end= with the number of forbid and need lines, and a line break after it.\n",
            Wrong::CarriageReturn =>
                b"a carriage return stands here; save the file with Unix line ends, which are LF alone.\n",
            Wrong::Blank =>
                b"a blank stands here; write the line without blanks, with = after its key and , + & or | between names.\n",
            Wrong::EmptyLine => b"the line is empty; take it out.\n",
            Wrong::LineEndsEarly =>
                b"the line ends too early; write the name, bracket or number that is missing.\n",
            Wrong::Capital => b"a capital letter stands here; write keys and names in lowercase.\n",
            Wrong::Foreign =>
                b"this sign, which your editor may not show, never stands in a job text; use a to z, 0 to 9 and = , + & | ( ) alone.\n",
            Wrong::NoSuchLine =>
                b"no such line can stand here; first comes columns=, then every forbid=, then every need=, last end=.\n",
            Wrong::LongName =>
                b"the name has more than 12 letters and digits; shorten it everywhere in the text.\n",
            Wrong::DeepBracket =>
                b"this is the 9th open bracket, and 8 are the most; take out brackets that are not needed.\n",
            Wrong::DigitFirst =>
                b"no digit can stand here; begin the name with a letter, or write the sign that joins it.\n",
            Wrong::Misplaced =>
                b"this sign can't stand here; compare the line with the manual, docs/MANUAL.md.\n",
        }
    }
}

// What is wrong at a place, which is in this column of its line.
#[tactic(auto, unfolding(crate::specs::Sentences::wrong_at, crate::specs::Sentences::capital))]
pub fn wrong_at(text: &[u8], place: usize, column: usize) -> Wrong
    ensures { result ≡ wrong_at text.now place column }
{
    let Some(&sign) = text.get(place) else {
        return Wrong::EndsEarly;
    };
    match sign {
        b'\r' => Wrong::CarriageReturn,
        b' ' | b'\t' => Wrong::Blank,
        LINE_END if column == 1 => Wrong::EmptyLine,
        LINE_END => Wrong::LineEndsEarly,
        b'A'..=b'Z' => Wrong::Capital,
        _ if !of_texts(sign) => Wrong::Foreign,
        _ if in_key(text, place, column) => Wrong::NoSuchLine,
        _ => wrong_sign(text, place),
    }
}

// What is wrong at a place after a line's key: a name too long, a bracket too deep, a digit before a name, or another sign.
#[tactic(auto, using(crate::proofs::Before::full_before), unfolding(crate::specs::Sentences::wrong_sign))]
fn wrong_sign(text: &[u8], place: usize) -> Wrong
    requires { place < length text.now }
    ensures { result ≡ wrong_sign text.now place }
{
    let sign = text[place];
    let before = &text[..place];
    if in_name(sign) && name_full(before) {
        return Wrong::LongName;
    }
    if sign == b'(' && MOST_BRACKETS <= open_before(before) {
        return Wrong::DeepBracket;
    }
    // the first place has none before it, but belongs to a key
    if digit(sign) && !in_name(text[place.saturating_sub(1)]) {
        return Wrong::DigitFirst;
    }
    Wrong::Misplaced
}

// Whether a place in this column of its line has no = before it in the line.
fn in_key(text: &[u8], place: usize, column: usize) -> bool
    requires { place ≤ length text.now }
    ensures { result ≡ in_key text.now place column }
{
    let line = place.saturating_sub(column.saturating_sub(1));
    text[line..place].iter().all(|sign| *sign != b'=')
}

// Whether these bytes end with as many letters and digits as a name may have.
fn name_full(before: &[u8]) -> bool
    ensures { result ≡ name_full before.now (length before.now) }
{
    MOST_NAME_BYTES <= before.len()
        && before[before.len() - MOST_NAME_BYTES..]
            .iter()
            .all(|sign| in_name(*sign))
}

// How many brackets are open behind these bytes.
fn open_before(before: &[u8]) -> usize
    ensures { result ≡ open_after 0 before.now }
{
    let mut opened: usize = 0;
    for sign in before {
        match *sign {
            b'(' => opened += 1,
            b')' => opened = opened.saturating_sub(1),
            _ => {}
        }
    }
    opened
}

// Whether a byte is one of job texts, and no line's end.
fn of_texts(sign: u8) -> bool
    ensures { result ≡ (in_name sign || joining_byte sign) }
{
    in_name(sign) || joining(sign)
}

// Whether a byte is one of job texts that is neither in a name nor a line's end.
#[tactic(auto, unfolding(crate::specs::Sentences::joining))]
fn joining(sign: u8) -> bool
    ensures { result ≡ joining_byte sign }
{
    matches!(sign, b'=' | b',' | b'+' | b'&' | b'|' | b'(' | b')')
}
