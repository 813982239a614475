// Jobs whose split the order of 01 decides. A comment names what another order would give.
// The cases are calls, one after the other: in a table of tuples each would take as many lines, and the calls say what they do.
use crate::planning::plan;
use std::io;
use worked::numbers::numbers;

pub fn run(rt: &impl Print) -> io::Result<()> {
    extracts_first(rt)?;
    columns_next(rt)?;
    first_number(rt)?;
    later_numbers(rt)?;
    rising(rt)
}

// Fewer extracts go before fewer columns in all.
fn extracts_first(rt: &impl Print) -> io::Result<()> {
    // Not 1, 2.
    plan(
        rt,
        "one extract of four columns",
        numbers(5, &[3], &[0, 18, 1, 2, 3, 16, 4, 16, 17, 18]),
    )?;
    // Not 1, 2, 4; and not 2, 25, which has as many columns.
    plan(
        rt,
        "two extracts of four columns",
        numbers(5, &[3, 5, 6], &[0, 18, 1, 18, 2, 3, 4, 16, 17, 18]),
    )
}

// Fewer columns in all go before smaller numbers.
fn columns_next(rt: &impl Print) -> io::Result<()> {
    // Not 1, 6.
    plan(
        rt,
        "two columns in all",
        numbers(4, &[3, 5, 9], &[0, 18, 3, 1, 2, 16, 17, 18]),
    )?;
    // Not 3, 56, though 3 is the smallest set that meets a need.
    plan(
        rt,
        "four columns in all",
        numbers(6, &[33], &[0, 1, 2, 17, 16, 18, 5, 1, 3, 4, 16, 17, 16, 18]),
    )
}

// The smaller first number.
fn first_number(rt: &impl Print) -> io::Result<()> {
    // Not 2.
    plan(rt, "the first of one", numbers(2, &[], &[1, 0, 17, 18]))?;
    // Not 6, 9, though 9 is below 10.
    plan(
        rt,
        "the first of two",
        numbers(4, &[3], &[0, 2, 3, 17, 16, 18, 1, 2, 3, 17, 16, 18]),
    )?;
    // Not from 3 on, the smallest set that meets a need: it leaves the other need without its column.
    plan(
        rt,
        "the first that leaves a second",
        numbers(4, &[9], &[0, 1, 2, 17, 16, 18, 3, 1, 16, 18]),
    )
}

// The first numbers are equal. Any two of the columns are forbidden.
fn later_numbers(rt: &impl Print) -> io::Result<()> {
    // Not 1, 4.
    plan(
        rt,
        "the second",
        numbers(3, &[3, 5, 6], &[0, 18, 2, 1, 17, 18]),
    )?;
    // Not 1, 2, 8.
    plan(
        rt,
        "the third",
        numbers(4, &[3, 5, 6, 9, 10, 12], &[3, 2, 17, 18, 0, 18, 1, 18]),
    )
}

// Numbers rise, whatever the order of the needs and however many columns an extract has.
fn rising(rt: &impl Print) -> io::Result<()> {
    plan(
        rt,
        "the larger set first",
        numbers(4, &[9], &[3, 18, 0, 1, 16, 2, 16, 18]),
    )?;
    plan(
        rt,
        "the last need first",
        numbers(3, &[3, 5, 6], &[2, 18, 1, 18, 0, 18]),
    )
}
