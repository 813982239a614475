// A machine that takes a text byte by byte, so that the byte at which it goes wrong is the place where the text stops being of the form. Its state is
// what the bytes so far say about the bytes that may come.
ghost use Rattle.std.specs.Prelude.{◌≡◌, true, ◌+◌, ◌<◌};
ghost use Rattle.naming.specs.Sections.{width_of};
ghost use Rattle.form.specs.Order.{follows};
ghost use Rattle.form.specs.Machine.{value_of, onward as onward_in, in_key, has_brackets, joining, at_item, behind_item, name_on};
ghost use Rattle.form.specs.Machine.{in_number, on_digit, number_ending, step as stepped, Possible};

use crate::keys::BegunKey;
use crate::order::likely;
use naming::sections::{Section, key_byte, width};
use naming::signs::{LINE_END, MOST_BRACKETS, digit, in_name, letter};
use naming::words::MOST_NAME_BYTES;

// The machine's states, each with what it has of the bytes so far: of the shape of neither an option nor a result, and a match on them is the machine.

// What stands of the end line's number: no digit yet, the digit 0, another one, two digits.
#[derive(Clone, Copy)]
pub enum Digits {
    Nothing,
    Zero,
    Other,
    Two,
}

#[derive(Clone, Copy)]
pub enum State {
    // So many bytes of a key stand. Its fields stand here one by one, since the machine takes a third longer where it copies a BegunKey as a whole.
    Key {
        section: Section,
        behind: Option<Section>, // the section of the line before, if there is one
        count: usize,
    },
    // So many bytes of a name stand, and so many brackets are open. With 0 bytes a name or a bracket must come.
    Name {
        section: Section,
        count: usize,
        opened: usize,
    },
    Closed {
        opened: usize, // a closing bracket stands; brackets still open
    },
    Number(Digits), // what stands of the end line's number
    Done, // the last line has ended
    Wrong, // no byte that follows can help
}

impl State {
    // Where the text begins, columns= must come.
    pub const BEGIN: Self = Self::Key {
        section: Section::Columns,
        behind: None,
        count: 0,
    };
}

// The state behind one more byte.
pub fn step(state: State, byte: u8) -> State
    requires { Possible state }
    ensures { result ≡ stepped state byte }
{
    match state {
        State::Key {
            section,
            behind,
            count,
        } => in_key(
            BegunKey {
                section,
                behind,
                count,
            },
            byte,
        ),
        State::Name {
            section,
            count,
            opened,
        } => name_on(section, count, opened, byte),
        State::Closed { opened } => behind_item(Section::Need, opened, byte),
        State::Number(digits) => in_number(digits, byte),
        State::Done => State::Wrong,
        State::Wrong => State::Wrong,
    }
}

// Where a section's key does not go on with the byte, another may that begins alike.
fn in_key(key: BegunKey, byte: u8) -> State
    requires { (follows key.behind key.section ≡ true) × (key.count < width_of key.section) }
    ensures { result ≡ in_key key.behind key.section key.count byte }
{
    if byte == key_byte(key.section, key.count) {
        return onward(key, key.section);
    }
    match key.first_that_goes_on(byte) {
        Some(other) => onward(key, other),
        None => State::Wrong,
    }
}

// One more byte stands, of this section's key: another one must come, or what stands behind the key.
fn onward(key: BegunKey, section: Section) -> State
    requires { key.count < width_of key.section }
    ensures { result ≡ onward_in key.behind section (key.count + 1) }
{
    let count = key.count + 1;
    if count < width(section) {
        State::Key {
            section,
            behind: key.behind,
            count,
        }
    } else {
        value(section)
    }
}

// What must come behind a key.
fn value(section: Section) -> State
    ensures { result ≡ value_of section }
{
    match section {
        Section::Columns | Section::Forbid | Section::Need => State::Name {
            section,
            count: 0,
            opened: 0,
        },
        Section::End => State::Number(Digits::Nothing),
    }
}

// So many bytes of a name stand. With none a name or a bracket must come, else another byte of the name may come or its end.
fn name_on(section: Section, count: usize, opened: usize, byte: u8) -> State
    ensures { result ≡ name_on section count opened byte }
{
    if count == 0 {
        return at_item(section, opened, byte);
    }
    if !in_name(byte) {
        return behind_item(section, opened, byte);
    }
    if count < MOST_NAME_BYTES {
        return State::Name {
            section,
            count: count + 1,
            opened,
        };
    }
    State::Wrong
}

// A name must come, or in a need an opening bracket.
fn at_item(section: Section, opened: usize, byte: u8) -> State
    ensures { result ≡ at_item section opened byte }
{
    if letter(byte) {
        return State::Name {
            section,
            count: 1,
            opened,
        };
    }
    if byte != b'(' {
        return State::Wrong;
    }
    if !has_brackets(section) {
        return State::Wrong;
    }
    if opened < MOST_BRACKETS {
        return State::Name {
            section,
            count: 0,
            opened: opened + 1,
        };
    }
    State::Wrong
}

// A name or a closing bracket has ended. Outside needs no bracket is ever open, so none can be closed there.
fn behind_item(section: Section, opened: usize, byte: u8) -> State
    ensures { result ≡ behind_item section opened byte }
{
    if joins(section, byte) {
        return State::Name {
            section,
            count: 0,
            opened,
        };
    }
    if byte == b')' {
        return if opened == 0 {
            State::Wrong
        } else {
            State::Closed { opened: opened - 1 }
        };
    }
    if byte == LINE_END {
        return if opened == 0 {
            State::Key {
                section: likely(section),
                behind: Some(section),
                count: 0,
            }
        } else {
            State::Wrong
        };
    }
    State::Wrong
}

// The end line's number: one or two digits, and two never start with 0.
fn in_number(digits: Digits, byte: u8) -> State
    ensures { result ≡ in_number digits byte }
{
    if byte == LINE_END {
        return number_ending(digits);
    }
    if !digit(byte) {
        return State::Wrong;
    }
    on_digit(digits, byte)
}

// Another digit of the number.
fn on_digit(digits: Digits, byte: u8) -> State
    ensures { result ≡ on_digit digits byte }
{
    match digits {
        Digits::Nothing => {
            if byte == b'0' {
                State::Number(Digits::Zero)
            } else {
                State::Number(Digits::Other)
            }
        }
        Digits::Other => State::Number(Digits::Two),
        Digits::Zero | Digits::Two => State::Wrong,
    }
}

// The number's line ends, behind at least one digit.
fn number_ending(digits: Digits) -> State
    ensures { result ≡ number_ending digits }
{
    match digits {
        Digits::Nothing => State::Wrong,
        Digits::Zero | Digits::Other | Digits::Two => State::Done,
    }
}

// Whether the byte joins the names or items of a section.
fn joins(section: Section, byte: u8) -> bool
    ensures { result ≡ joining section byte }
{
    match section {
        Section::Columns => byte == b',',
        Section::Forbid => byte == b'+',
        Section::Need => byte == b'&' || byte == b'|',
        Section::End => false,
    }
}

// Whether the items of a section may be in brackets.
fn has_brackets(section: Section) -> bool
    ensures { result ≡ has_brackets section }
{
    matches!(section, Section::Need)
}
