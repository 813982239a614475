// A job text: any bytes in, the refusal with its place or the job out.
#![tactic(auto)]

use faults::first_fault;
use faults::sections::sections;
use form::form;
use job::refusals::{Fault, Refusal};
use job::{Job, MOST_FORBIDDEN, MOST_MARKS, Numbers, load};
use table::NAMES;

pub mod table; // table.rt: the names of the columns
mod sets; // sets.rt: the forbidden sets
mod needs; // needs.rt: the marks of the needs

ghost use Rattle.std.specs.Prelude.{◌≡◌, None, MatchResult};
ghost use Rattle.rules.specs.Texts.{Sheet, OfForm, HasForm, StopsAt};
ghost use Rattle.rules.specs.Sheets.{sheet_fault};
ghost use Rattle.rules.specs.Readings.{reading_of};
ghost use Rattle.text.specs.Promises.{Right, Takes, read_of, in_numbers};

// "Job text at most 8,192 bytes."
pub const MOST_BYTES: usize = 8192;

// The job, and the names of its columns, 12 bytes for each. Every place without a number or a byte is 0. There is no heap, so the names are an array, of
// which the job's columns say how much is filled.
#[derive(Clone, Copy)]
pub struct JobRead {
    pub job: Job,
    pub names: [u8; NAMES],
}

// Refused where the text stops being of the form.
fn of_form(text: &[u8]) -> Result<(), Fault>
    ensures { MatchResult result (λ _. HasForm text.now) (λ fault. (fault.refusal ≡ Refusal.TextNotOfForm) × StopsAt text.now fault.place) }
{
    form(text).map_err(|place| Fault {
        refusal: Refusal::TextNotOfForm,
        place,
    })
}

// The job of a text without a fault.
fn taken(text: &[u8]) -> JobRead
    requires { Right text.now }
    ensures { (sheet : Sheet) → OfForm text.now sheet → sheet_fault sheet ≡ None → in_numbers (Ok result) ≡ read_of (reading_of sheet) }
{
    let places = sections(text);
    let table = table::name_table(text);
    // there is no heap: the sets and the marks fill the first places of arrays
    let mut forbidden = [0u16; MOST_FORBIDDEN];
    let count = sets::forbidden_sets(text, places.forbids, &mut forbidden);
    let mut marks = [0u16; MOST_MARKS];
    let marked = needs::need_marks(text, places.needs, &mut marks);
    let loaded = load(Numbers {
        columns: table.columns,
        forbidden: &forbidden[..count],
        marks: &marks[..marked],
    });
    // the numbers of a text without a fault are fit
    let job = loaded.unwrap();
    let names = table.names;
    JobRead { job, names }
}

// Reads a job text. Any bytes may come: a text with a fault is refused with the fault that comes first in 01's order.
pub fn read(text: &[u8]) -> Result<JobRead, Fault>
    ensures { Takes text.now (in_numbers result) }
{
    if MOST_BYTES < text.len() {
        return Err(Fault {
            refusal: Refusal::TextTooLong,
            place: MOST_BYTES,
        });
    }
    of_form(text)?;
    // not by `?`, so that what goes up is written here and an edit of its place changes a value; a match over both takes one copy of the job more
    if let Err(fault) = first_fault(text) {
        return Err(fault);
    }
    Ok(taken(text))
}
