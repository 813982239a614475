// Each way in which numbers can be unfit, beside the limit that is still fit.
// The cases are calls, one after the other: in a table of tuples each would take as many lines, and the calls say what they do.
use job::Numbers;
use std::io;
use worked::numbers::numbers;

fn load(rt: &impl Print, case: &str, numbers: Numbers) -> io::Result<()> {
    match job::load(numbers) {
        Some(job) => println!(rt; "{case}: fit, needs {}", job.needs),
        None => println!(rt; "{case}: unfit"),
    }
}

pub fn run(rt: &impl Print) -> io::Result<()> {
    columns(rt)?;
    forbidden_sets(rt)?;
    whole_needs(rt)?;
    joins(rt)?;
    marks(rt)?;
    column_marks(rt)?;
    how_many_needs(rt)
}

fn columns(rt: &impl Print) -> io::Result<()> {
    load(rt, "no columns", numbers(0, &[], &[]))?;
    load(rt, "one column", numbers(1, &[], &[]))?;
    load(rt, "16 columns", numbers(16, &[65535], &[15, 18]))?;
    load(rt, "17 columns", numbers(17, &[], &[]))?;
    load(rt, "65,537 columns", numbers(65537, &[], &[]))
}

fn forbidden_sets(rt: &impl Print) -> io::Result<()> {
    load(rt, "32 sets", numbers(2, &[1u16; 32], &[]))?;
    load(rt, "33 sets", numbers(2, &[1u16; 33], &[]))?;
    load(rt, "an empty set", numbers(3, &[1, 0], &[]))?;
    load(rt, "a set of a missing column", numbers(3, &[7, 8], &[]))
}

fn whole_needs(rt: &impl Print) -> io::Result<()> {
    load(rt, "the first need not closed", numbers(1, &[], &[0]))?;
    load(
        rt,
        "the second need not closed",
        numbers(1, &[], &[0, 18, 0]),
    )?;
    load(rt, "a need without a mark", numbers(1, &[], &[18]))?;
    load(
        rt,
        "a second need without a mark",
        numbers(1, &[], &[0, 18, 18]),
    )
}

fn joins(rt: &impl Print) -> io::Result<()> {
    load(rt, "a join of nothing", numbers(1, &[], &[16, 18]))?;
    load(rt, "a join of one", numbers(1, &[], &[0, 17, 18]))?;
    load(
        rt,
        "a join before its second operand",
        numbers(2, &[], &[0, 16, 1, 18]),
    )?;
    load(rt, "two operands left", numbers(2, &[], &[0, 1, 18]))
}

fn marks(rt: &impl Print) -> io::Result<()> {
    load(rt, "mark 19", numbers(2, &[], &[0, 19, 16, 18]))?;
    load(
        rt,
        "a mark of a missing column",
        numbers(2, &[], &[0, 2, 16, 18]),
    )?;
    load(rt, "mark 65,535", numbers(16, &[], &[65535, 18]))
}

// Column 0 joined with itself: two marks more for each column mark more.
fn column_marks(rt: &impl Print) -> io::Result<()> {
    let mut most = [0u16; 64];
    every_other(&mut most, 2, 16);
    most[63] = 18;
    load(rt, "32 column marks", numbers(1, &[], &most))?;
    let mut one_more = [0u16; 66];
    every_other(&mut one_more, 2, 16);
    one_more[65] = 18;
    load(rt, "33 column marks", numbers(1, &[], &one_more))
}

fn how_many_needs(rt: &impl Print) -> io::Result<()> {
    let mut most = [0u16; 16];
    every_other(&mut most, 1, 18);
    load(rt, "8 needs", numbers(1, &[], &most))?;
    let mut one_more = [0u16; 18];
    every_other(&mut one_more, 1, 18);
    load(rt, "9 needs", numbers(1, &[], &one_more))
}

// Puts the mark at a place and at every other place after it.
fn every_other(marks: &mut [u16], from: usize, mark: u16) {
    for place in marks.iter_mut().skip(from).step_by(2) {
        *place = mark;
    }
}
