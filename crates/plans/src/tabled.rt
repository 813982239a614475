// 01, "Small table to be proved": the cases that speak of a split. Case 3 has none.
use crate::planning::plan;
use std::io;
use worked::numbers::numbers;

pub fn run(rt: &impl Print) -> io::Result<()> {
    one_need(rt)?;
    more_needs(rt)?;
    case_7(rt)
}

fn one_need(rt: &impl Print) -> io::Result<()> {
    plan(rt, "case 1", numbers(1, &[], &[0, 18]))?;
    plan(rt, "case 2", numbers(2, &[3], &[0, 1, 17, 18]))?;
    plan(rt, "case 4", numbers(2, &[3], &[0, 1, 16, 18]))?;
    plan(rt, "case 6", numbers(1, &[], &[]))?;
    plan(rt, "case 8", numbers(3, &[], &[2, 0, 1, 16, 17, 18]))
}

fn more_needs(rt: &impl Print) -> io::Result<()> {
    plan(rt, "case 5", numbers(2, &[3], &[0, 18, 1, 18]))?;
    plan(
        rt,
        "case 9",
        numbers(4, &[3], &[0, 18, 1, 2, 3, 16, 17, 18]),
    )?;
    plan(rt, "case 10", numbers(3, &[], &[0, 1, 17, 18, 2, 18]))
}

// Each need alone can be met, both cannot.
fn case_7(rt: &impl Print) -> io::Result<()> {
    plan(
        rt,
        "case 7",
        numbers(3, &[6], &[0, 1, 16, 18, 0, 2, 16, 18]),
    )?;
    plan(
        rt,
        "case 7, the first need",
        numbers(3, &[6], &[0, 1, 16, 18]),
    )?;
    plan(
        rt,
        "case 7, the second need",
        numbers(3, &[6], &[0, 2, 16, 18]),
    )
}
