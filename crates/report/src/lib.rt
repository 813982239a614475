// A job text and what is printed for it: any bytes in, the page out.
#![tactic(auto)]

use job::refusals::{Fault, Refusal};
use job::{Job, Numbers};
use planner::{MOST_EXTRACTS, plan};
use text::table::NAMES;
use text::{JobRead, read};
use writing::Page;

mod lines; // lines.rt: the lines of a page

ghost use Rattle.job.specs.Records.{numbers_in};
ghost use Rattle.planner.specs.Promises.{Plans, in_numbers as plan_numbers};
ghost use Rattle.report.specs.Taken.{Filled, Comes};
ghost use Rattle.report.specs.Promises.{Ends, Reports, in_numbers};

// No page is longer: eight extracts, in them sixteen columns, all with names of 12 bytes.
pub const MOST_PAGE_BYTES: usize = 296;

// The refusal with its place, if there is one; and how many bytes the page has.
#[derive(Clone, Copy, Debug, PartialEq, Eq)]
pub struct Reported {
    pub outcome: Result<(), Fault>,
    pub length: usize,
}

// The names of a text's columns, and the planner's split of its job over the first places of the extracts: memory is fixed, so how many there are stands
// beside them.
#[derive(Clone, Copy)]
struct Split {
    names: [u8; NAMES],
    extracts: [u16; MOST_EXTRACTS],
    count: usize,
}

// Plans a job that was read.
fn planned(job: &Job, extracts: &mut [u16]) -> Result<u16, Refusal>
    requires { Filled job.now }
    ensures { Plans (numbers_in job.now) extracts.old (plan_numbers result) extracts.new }
{
    let numbers = Numbers {
        columns: job.columns as usize,
        forbidden: &job.forbidden[..job.sets],
        marks: &job.marks[..job.marked],
    };
    plan(numbers, extracts)
}

// Reads a job text and plans its job. What is refused with planning is the job as a whole, at place 0.
fn split_of(text: &[u8]) -> Result<Split, Fault>
    ensures { Comes text.now result }
{
    let JobRead { job, names } = read(text)?;
    let mut extracts = [0u16; MOST_EXTRACTS];
    let count = planned(&job, &mut extracts).map_err(|refusal| Fault { refusal, place: 0 })?;
    Ok(Split {
        names,
        extracts,
        count: count as usize,
    })
}

// Puts the page of a text, and says how the text ended.
fn put_page(page: &mut Page, text: &[u8]) -> Result<(), Fault>
    ensures { Ends text.now result page.old page.new }
{
    match split_of(text) {
        Ok(split) => {
            lines::put_split(page, &split.names, &split.extracts[..split.count]);
            Ok(())
        }
        Err(fault) => {
            let number = u16::from(fault.refusal);
            lines::put_refusal(page, number, fault.place);
            Err(fault)
        }
    }
}

// Reads a job text, plans its job, and writes the page over the first places of the slice, which has 296 places or more; a shorter one is refused, and
// nothing is written. Any bytes may come as text. The page of a text that is refused says so, with the refusal's number and place.
pub fn report(text: &[u8], page: &mut [u8]) -> Reported
    ensures { Reports text.now page.old (in_numbers result) page.new }
{
    if page.len() < MOST_PAGE_BYTES {
        return Reported {
            outcome: Err(Fault {
                refusal: Refusal::SliceTooShort,
                place: 0,
            }),
            length: 0,
        };
    }
    let mut page = Page {
        places: page,
        end: 0,
    };
    let outcome = put_page(&mut page, text);
    Reported {
        outcome,
        length: page.end,
    }
}
