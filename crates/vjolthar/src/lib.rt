// The library as other languages call it, by the exports of `vjolthar_c`: every public call over numbers and slices alone. A call's answer is a struct or an
// enum, which is no form that other languages share; so each function here returns the refusal's number and hands out the others one by one,
// and takes numbers and slices one by one.
#![tactic(auto)]

use job::refusals::Refusal;
use job::{MOST_FORBIDDEN, MOST_MARKS, Numbers, copies, no_job};
use text::JobRead;
use text::table::NAMES;
use verdicts::Told;

mod verdicts; // verdicts.rt: the judge's answer as numbers

ghost use Rattle.std.specs.Prelude.{◌≡◌, []};
ghost use Rattle.rules.specs.Lists.{written};
ghost use Rattle.job.specs.Records.{no_job};
ghost use Rattle.text.specs.Tables.{name_table};
ghost use Rattle.growing.specs.Slices.{node_slices};
ghost use Rattle.diagram.specs.Slices.{path_slices};
ghost use Rattle.diagram.specs.Promises.{Draws, Lists};
ghost use Rattle.planner.specs.Promises.{Plans};
ghost use Rattle.report.specs.Promises.{Reports};
ghost use Rattle.vjolthar.specs.Verdicts.{Tells};
ghost use Rattle.vjolthar.specs.Handed.{too_short, Hands};

// `text::read`. The job that was read is written over the first 32, 512 and 192 places of the slices, its unused places too.
pub fn vjolthar_read(
    text: &[u8],
    forbidden: &mut [u16],
    marks: &mut [u16],
    names: &mut [u8],
    place: &mut usize,
    columns: &mut usize,
    sets: &mut usize,
    needs: &mut usize,
    marked: &mut usize,
) -> u16
    ensures { Hands text.now
        (record { forbidden = forbidden.old; marks = marks.old; names = names.old })
        (record {
          refusal = result;
          place = place.new;
          columns = columns.new;
          sets = sets.new;
          needs = needs.new;
          marked = marked.new;
        })
        (record { forbidden = forbidden.new; marks = marks.new; names = names.new }) }
{
    *place = 0;
    *columns = 0;
    *sets = 0;
    *needs = 0;
    *marked = 0;
    if too_short(forbidden, marks, names) {
        return u16::from(Refusal::SliceTooShort);
    }
    match text::read(text) {
        Ok(read) => {
            hand_out(&read, forbidden, marks, names);
            *columns = read.job.columns as usize;
            *sets = read.job.sets;
            *needs = read.job.needs;
            *marked = read.job.marked;
            0 // nothing is refused
        }
        Err(first) => {
            hand_out(&nothing_read(), forbidden, marks, names);
            *place = first.place;
            u16::from(first.refusal)
        }
    }
}

// Writes a job and its names over the first places of the slices. What was read is lent, since it is over a thousand bytes.
fn hand_out(read: &JobRead, forbidden: &mut [u16], marks: &mut [u16], names: &mut [u8])
    ensures forbidden { forbidden.new ≡ written read.now.job.forbidden forbidden.old }
    ensures marks { marks.new ≡ written read.now.job.marks marks.old }
    ensures names { names.new ≡ written read.now.names names.old }
{
    copies::write(forbidden, &read.job.forbidden);
    copies::write(marks, &read.job.marks);
    writing::put(names, 0, &read.names);
}

// Whether one of the slices has fewer places than the job as a value.
#[tactic(auto, unfolding(crate::specs::Handed::too_short))]
fn too_short(forbidden: &[u16], marks: &[u16], names: &[u8]) -> bool
    ensures { result ≡ too_short (record { forbidden = forbidden.now; marks = marks.now; names = names.now }) }
{
    forbidden.len() < MOST_FORBIDDEN || marks.len() < MOST_MARKS || names.len() < NAMES
}

// What is handed out of a text that is refused: a job with no columns, sets or marks, and no names.
fn nothing_read() -> JobRead
    ensures { (result.job ≡ no_job) × (result.names ≡ name_table []) }
{
    JobRead {
        job: no_job(),
        names: [0u8; NAMES],
    }
}

// `diagram::diagram`
pub fn vjolthar_diagram(
    columns: usize,
    forbidden: &[u16],
    marks: &[u16],
    chosen: usize,
    column: &mut [u16],
    low: &mut [u16],
    high: &mut [u16],
    root: &mut u16,
    count: &mut u16,
) -> u16
    ensures { Draws (record { columns = columns; forbidden = forbidden.now; marks = marks.now }) chosen
        (node_slices column.old low.old high.old)
        (record { refusal = result; root = root.new; count = count.new })
        (node_slices column.new low.new high.new) }
{
    let numbers = Numbers {
        columns,
        forbidden,
        marks,
    };
    match diagram::diagram(numbers, chosen, column, low, high) {
        Ok(drawn) => {
            *root = drawn.root;
            *count = drawn.count;
            0
        }
        Err(refusal) => {
            *root = 0;
            *count = 0;
            u16::from(refusal)
        }
    }
}

// `diagram::one_paths`
pub fn vjolthar_one_paths(
    columns: usize,
    forbidden: &[u16],
    marks: &[u16],
    chosen: usize,
    column: &mut [u16],
    low: &mut [u16],
    high: &mut [u16],
    ones: &mut [u16],
    zeros: &mut [u16],
    root: &mut u16,
    count: &mut u16,
    paths: &mut u16,
) -> u16
    ensures { Lists (record { columns = columns; forbidden = forbidden.now; marks = marks.now }) chosen
        (node_slices column.old low.old high.old)
        (path_slices ones.old zeros.old)
        (record { refusal = result; root = root.new; count = count.new; paths = paths.new })
        (node_slices column.new low.new high.new)
        (path_slices ones.new zeros.new) }
{
    let numbers = Numbers {
        columns,
        forbidden,
        marks,
    };
    match diagram::one_paths(numbers, chosen, column, low, high, ones, zeros) {
        Ok(listed) => {
            *root = listed.root;
            *count = listed.count;
            *paths = listed.paths;
            0
        }
        Err(refusal) => {
            *root = 0;
            *count = 0;
            *paths = 0;
            u16::from(refusal)
        }
    }
}

// `judge::judge`. The fault is 0 for right, 1 for an extract that is empty or names a missing column, 2 for a forbidden set contained, 3 for a column shared,
// 4 for a need that is not met; `first` and `second` are its values.
pub fn vjolthar_judge(
    columns: usize,
    forbidden: &[u16],
    marks: &[u16],
    split: &[u16],
    fault: &mut u16,
    first: &mut usize,
    second: &mut usize,
) -> u16
    ensures { Tells (record { columns = columns; forbidden = forbidden.now; marks = marks.now }) split.now
        (record { refusal = result; fault = fault.new; first = first.new; second = second.new }) }
{
    let numbers = Numbers {
        columns,
        forbidden,
        marks,
    };
    let told = Told::from(judge::judge(numbers, split));
    *fault = told.fault;
    *first = told.first;
    *second = told.second;
    told.refusal
}

// `planner::plan`
pub fn vjolthar_plan(
    columns: usize,
    forbidden: &[u16],
    marks: &[u16],
    extracts: &mut [u16],
    count: &mut u16,
) -> u16
    ensures { Plans (record { columns = columns; forbidden = forbidden.now; marks = marks.now })
        extracts.old (record { refusal = result; count = count.new }) extracts.new }
{
    let numbers = Numbers {
        columns,
        forbidden,
        marks,
    };
    match planner::plan(numbers, extracts) {
        Ok(planned) => {
            *count = planned;
            0
        }
        Err(refused) => {
            *count = 0;
            u16::from(refused)
        }
    }
}

// `report::report`
pub fn vjolthar_report(text: &[u8], page: &mut [u8], place: &mut usize, length: &mut usize) -> u16
    ensures { Reports text.now page.old
        (record { refusal = result; place = place.new; length = length.new }) page.new }
{
    let reported = report::report(text, page);
    *length = reported.length;
    match reported.outcome {
        Ok(()) => {
            *place = 0;
            0
        }
        Err(fault) => {
            *place = fault.place;
            u16::from(fault.refusal)
        }
    }
}
