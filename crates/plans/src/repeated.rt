// Lines that stand twice, say less than others, or stand in another order.
use crate::planning::plan;
use std::io;
use worked::numbers::numbers;

pub fn run(rt: &impl Print) -> io::Result<()> {
    twice(rt)?;
    other_order(rt)
}

fn twice(rt: &impl Print) -> io::Result<()> {
    plan(
        rt,
        "a need eight times",
        numbers(
            2,
            &[],
            &[1, 18, 1, 18, 1, 18, 1, 18, 1, 18, 1, 18, 1, 18, 1, 18],
        ),
    )?;
    plan(
        rt,
        "a need and a set twice",
        numbers(2, &[3, 3], &[0, 18, 1, 18, 0, 18]),
    )?;
    // What contains a forbidden set is forbidden without being named; what lies inside one is not.
    plan(
        rt,
        "a set and larger ones",
        numbers(4, &[15, 7, 3, 11], &[0, 1, 16, 18, 2, 18]),
    )?;
    plan(
        rt,
        "the larger ones alone",
        numbers(4, &[15, 7, 11], &[0, 1, 16, 18, 2, 18]),
    )
}

// The published examples with their lines the other way round, and the operands of every join too.
fn other_order(rt: &impl Print) -> io::Result<()> {
    plan(
        rt,
        "000, the other way round",
        numbers(
            6,
            &[44, 28, 34, 18, 1],
            &[5, 4, 16, 18, 3, 2, 16, 0, 17, 18, 5, 3, 17, 18],
        ),
    )?;
    plan(
        rt,
        "01, the other way round",
        numbers(
            6,
            &[18, 17, 4],
            &[5, 4, 17, 1, 16, 18, 4, 3, 16, 18, 2, 0, 17, 18],
        ),
    )
}
