// Texts with one byte left out, put in or changed. What they give is added up.
ghost use Rattle.std.specs.Prelude.{◌≤◌, length};

use crate::answers;
use job::refusals::Fault;
use spelt::draft::Draft;
use std::fmt::{self, Display, Formatter, Write};
use text::JobRead;
use worked::checksum::Checksum;
use worked::random::Random;

// How many damaged texts are made of each text.
const EACH: usize = 60;

// The bytes that are put in: those of the form, and some that are not.
const SIGNS: [u8; 32] = *b"aabcdefnoz0199=,+&|()\n\n\n\r A_~-\x00\xc3";

// What has been added up.
#[derive(Clone, Copy, Default)]
pub struct Sums {
    texts: usize,
    refusals: usize,
    places: usize,
    checksum: Checksum,
}

impl Sums {
    // With the damaged texts of one text.
    pub fn add_damaged(&mut self, random: &mut Random, text: &[u8]) {
        for _ in 0..EACH {
            let other = damaged(text, random.next());
            self.add(&text::read(other.as_bytes()));
        }
    }

    fn add(&mut self, answer: &Result<JobRead, Fault>) {
        self.texts = self.texts.wrapping_add(1);
        if let Err(fault) = answer {
            let number = u16::from(fault.refusal);
            self.refusals = self.refusals.wrapping_add(number.into());
            self.places = self.places.wrapping_add(fault.place);
        }
        answers::add_answer(&mut self.checksum, answer);
    }
}

impl Display for Sums {
    fn fmt<W: Write>(&self, f: &mut Formatter<W>) -> fmt::Result {
        write!(f, "{}: refusals {}, ", self.texts, self.refusals)?;
        write!(f, "places {}, checksum {}", self.places, self.checksum)
    }
}

// A place of a text, or its end.
fn place_of(text: &[u8], drawn: u64) -> usize
    ensures { result ≤ length text.now }
{
    (drawn % (text.len() as u64 + 1)) as usize
}

// One of the bytes that are put in.
fn sign(drawn: u64) -> u8 {
    SIGNS[(drawn % 32) as usize]
}

// Another byte of the same sort, so that a text of the form stays one: a letter for a letter, a digit for a digit.
fn alike(old: u8, drawn: u64) -> u8 {
    match old {
        b'a'..=b'z' => b'a' + (drawn % 4) as u8,
        b'0'..=b'9' => b'0' + (drawn % 10) as u8,
        _ => old,
    }
}

// A text with one byte left out, put in, or changed to any or to one of its sort. At the end of a text the byte that is changed is a 0 behind it.
fn damaged(text: &[u8], drawn: u64) -> Draft {
    let (before, after) = text.split_at(place_of(text, drawn));
    let (old, rest) = match after {
        [old, rest @ ..] => (*old, rest),
        [] => (0, after),
    };
    let mut other = Draft::new();
    other.put_all(before);
    match drawn / 1048576 % 4 {
        0 => other.put_all(rest),
        1 => {
            other.put(sign(drawn / 16777216));
            other.put_all(after);
        }
        2 => {
            other.put(sign(drawn / 16777216));
            other.put_all(rest);
        }
        _ => {
            other.put(alike(old, drawn / 16777216));
            other.put_all(rest);
        }
    }
    other
}
