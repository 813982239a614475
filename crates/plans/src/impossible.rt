// Jobs without a correct split, beside jobs that have one because they ask a little less.
// The cases are calls, one after the other: in a table of tuples each would take as many lines, and the calls say what they do.
use crate::planning::plan;
use std::io;
use worked::numbers::numbers;

// Three needs: each wants its own of the columns 0, 1 and 2, which are forbidden together, and one of the columns 3 and 4; or 3, 4 and 5.
const TWO_COLUMNS: [u16; 18] = [
    0, 3, 4, 17, 16, 18, 1, 3, 4, 17, 16, 18, 2, 3, 4, 17, 16, 18,
];

const THREE_COLUMNS: [u16; 24] = [
    0, 3, 4, 17, 5, 17, 16, 18, 1, 3, 4, 17, 5, 17, 16, 18, 2, 3, 4, 17, 5, 17, 16, 18,
];

pub fn run(rt: &impl Print) -> io::Result<()> {
    alone(rt)?;
    singly(rt)?;
    one_column_for_two(rt)?;
    too_few_columns(rt)?;
    first_choice(rt)
}

// No set meets the need, whatever the other needs ask.
fn alone(rt: &impl Print) -> io::Result<()> {
    plan(
        rt,
        "each need impossible alone",
        numbers(3, &[3, 6], &[0, 1, 16, 18, 1, 2, 16, 18]),
    )?;
    plan(
        rt,
        "one need of three impossible alone",
        numbers(4, &[12], &[0, 18, 2, 3, 16, 18, 1, 18]),
    )
}

// No extract is possible at all. Without needs none is wanted.
fn singly(rt: &impl Print) -> io::Result<()> {
    plan(rt, "the only column forbidden", numbers(1, &[1], &[0, 18]))?;
    plan(
        rt,
        "all columns forbidden singly",
        numbers(3, &[1, 2, 4], &[0, 1, 17, 2, 17, 18]),
    )?;
    plan(
        rt,
        "all columns forbidden singly, no needs",
        numbers(3, &[1, 2, 4], &[]),
    )
}

// Both needs want one column, so one extract must meet both: e with a or b, and e with c or d.
fn one_column_for_two(rt: &impl Print) -> io::Result<()> {
    plan(
        rt,
        "one column for two needs, each choice forbidden",
        numbers(
            5,
            &[5, 9, 6, 10],
            &[4, 0, 1, 17, 16, 18, 4, 2, 3, 17, 16, 18],
        ),
    )?;
    plan(
        rt,
        "one column for two needs, one choice left",
        numbers(5, &[5, 9, 6], &[4, 0, 1, 17, 16, 18, 4, 2, 3, 17, 16, 18]),
    )
}

// Two of the columns serve any two of the needs, but not three.
fn too_few_columns(rt: &impl Print) -> io::Result<()> {
    plan(
        rt,
        "two columns for three needs",
        numbers(5, &[3, 5, 6], &TWO_COLUMNS),
    )?;
    plan(
        rt,
        "two columns for two needs",
        numbers(5, &[3, 5, 6], &[0, 3, 4, 17, 16, 18, 2, 3, 4, 17, 16, 18]),
    )?;
    plan(
        rt,
        "three columns for three needs",
        numbers(6, &[3, 5, 6], &THREE_COLUMNS),
    )
}

// Possible, though not at once: d goes with c and with a, so these three lie together, without b. To begin with b, c and d in one extract meets two
// needs and leaves no d for a.
fn first_choice(rt: &impl Print) -> io::Result<()> {
    plan(
        rt,
        "not by the first choice",
        numbers(4, &[11], &[3, 2, 16, 18, 1, 18, 3, 0, 16, 18]),
    )
}
