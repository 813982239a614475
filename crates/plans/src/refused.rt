// Unfit numbers and slices that are too short: 7 goes before 8, and 8 before 9. The limits beside them are not refused.
// The cases are calls, one after the other: in a table of tuples each would take as many lines, and the calls say what they do.
ghost use Rattle.std.specs.Prelude.{◌≤◌};

use crate::planning::{plan, plan_within};
use std::io;
use worked::numbers::numbers;

pub fn run(rt: &impl Print) -> io::Result<()> {
    unfit_sets(rt)?;
    unfit_needs(rt)?;
    unfit_and_short(rt)?;
    too_short(rt)?;
    long_enough(rt)
}

fn unfit_sets(rt: &impl Print) -> io::Result<()> {
    plan(rt, "no columns", numbers(0, &[], &[]))?;
    plan(rt, "17 columns", numbers(17, &[], &[0, 18]))?;
    plan(rt, "a set of a missing column", numbers(2, &[4], &[0, 18]))?;
    plan(rt, "33 sets", numbers(1, &[1u16; 33], &[0, 18]))
}

fn unfit_needs(rt: &impl Print) -> io::Result<()> {
    plan(rt, "a need not closed", numbers(2, &[], &[0, 18, 1]))?;
    plan(rt, "a join of one", numbers(2, &[], &[0, 16, 18]))?;
    plan(rt, "mark 19", numbers(2, &[], &[0, 18, 19, 18]))?;
    plan(
        rt,
        "nine needs",
        numbers(
            1,
            &[],
            &[
                0, 18, 0, 18, 0, 18, 0, 18, 0, 18, 0, 18, 0, 18, 0, 18, 0, 18,
            ],
        ),
    )
}

fn unfit_and_short(rt: &impl Print) -> io::Result<()> {
    plan_within(
        rt,
        "an empty set, a slice of 7",
        numbers(2, &[0], &[0, 18]),
        7,
    )?;
    plan_within(
        rt,
        "a need without a mark, a slice of none",
        numbers(1, &[], &[18]),
        0,
    )
}

fn too_short(rt: &impl Print) -> io::Result<()> {
    two_extracts(rt, "two extracts, a slice of none", 0)?;
    two_extracts(rt, "two extracts, a slice of 7", 7)?;
    plan_within(rt, "no needs, a slice of 7", numbers(1, &[], &[]), 7)?;
    plan_within(
        rt,
        "impossible, a slice of 7",
        numbers(1, &[1], &[0, 18]),
        7,
    )
}

fn long_enough(rt: &impl Print) -> io::Result<()> {
    two_extracts(rt, "two extracts, a slice of 9", 9)?;
    two_extracts(rt, "two extracts, a slice of 16", 16)?;
    plan_within(rt, "no needs, a slice of 9", numbers(1, &[], &[]), 9)?;
    plan_within(
        rt,
        "impossible, a slice of 9",
        numbers(1, &[1], &[0, 18]),
        9,
    )
}

fn two_extracts(rt: &impl Print, case: &str, room: usize) -> io::Result<()>
    requires { room ≤ 16 }
{
    plan_within(rt, case, numbers(2, &[3], &[0, 18, 1, 18]), room)
}
