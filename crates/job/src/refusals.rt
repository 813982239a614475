// The refusals, each with its number in 01's table, and a fault: a refusal with its place.
ghost use Rattle.std.specs.Prelude.{◌≡◌};
ghost use Rattle.job.specs.Refusals.{number_of, Names};

// In the order of their numbers, 1 to 9.
#[derive(Clone, Copy, Debug, PartialEq, Eq)]
pub enum Refusal {
    TextTooLong, // the text is over 8,192 bytes
    TextNotOfForm, // the text is not of the form
    TooMany, // a 17th column, 33rd forbid line, 9th need line or 33rd name in a need
    NameTwice, // a name twice among the columns, or a known name twice in one forbid line
    NameUnknown, // a name that is no column
    EndNumberOther, // the end line has another number
    NumbersUnfit, // the numbers are unfit, or the need chosen doesn't exist
    SliceTooShort, // a lent slice is too short
    NoCorrectSplit, // no correct split exists
}

impl From<Refusal> for u16 {
    ghost from_gives = { λ refusal number. number ≡ number_of refusal };

    fn from(refusal: Refusal) -> u16 {
        match refusal {
            Refusal::TextTooLong => 1,
            Refusal::TextNotOfForm => 2,
            Refusal::TooMany => 3,
            Refusal::NameTwice => 4,
            Refusal::NameUnknown => 5,
            Refusal::EndNumberOther => 6,
            Refusal::NumbersUnfit => 7,
            Refusal::SliceTooShort => 8,
            Refusal::NoCorrectSplit => 9,
        }
    }
}

// A number that no refusal has.
#[derive(Clone, Copy, Debug, PartialEq, Eq)]
pub struct UnknownNumber(pub u16);

impl TryFrom<u16> for Refusal {
    type Error = UnknownNumber;

    ghost try_from_gives = { Names };

    fn try_from(number: u16) -> Result<Refusal, UnknownNumber> {
        match number {
            1 => Ok(Refusal::TextTooLong),
            2 => Ok(Refusal::TextNotOfForm),
            3 => Ok(Refusal::TooMany),
            4 => Ok(Refusal::NameTwice),
            5 => Ok(Refusal::NameUnknown),
            6 => Ok(Refusal::EndNumberOther),
            7 => Ok(Refusal::NumbersUnfit),
            8 => Ok(Refusal::SliceTooShort),
            9 => Ok(Refusal::NoCorrectSplit),
            _ => Err(UnknownNumber(number)),
        }
    }
}

// A refusal with the place that comes with it: a place of the text, or 0 where the refusal has none.
#[derive(Clone, Copy, Debug, PartialEq, Eq)]
pub struct Fault {
    pub refusal: Refusal,
    pub place: usize,
}
