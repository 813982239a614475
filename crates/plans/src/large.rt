// Splits of eight extracts, and jobs of 16 columns.
use crate::planning::{plan, plan_within};
use std::io;
use worked::numbers::numbers;
use worked::{dense, typical};

// Every two of the columns 0 to 7.
const PAIRS: [u16; 28] = [
    3, 5, 6, 9, 10, 12, 17, 18, 20, 24, 33, 34, 36, 40, 48, 65, 66, 68, 72, 80, 96, 129, 130, 132,
    136, 144, 160, 192,
];

// Each of the columns 0 to 7.
const COLUMNS: [u16; 16] = [0, 18, 1, 18, 2, 18, 3, 18, 4, 18, 5, 18, 6, 18, 7, 18];

// Each of the columns 0 to 7 with its fellow, eight columns on.
const FELLOWS: [u16; 32] = [
    0, 8, 16, 18, 1, 9, 16, 18, 2, 10, 16, 18, 3, 11, 16, 18, 4, 12, 16, 18, 5, 13, 16, 18, 6, 14,
    16, 18, 7, 15, 16, 18,
];

// The columns 0 to 7 together, and the columns 8 to 15 together.
const HALVES: [u16; 32] = [
    0, 1, 16, 2, 16, 3, 16, 4, 16, 5, 16, 6, 16, 7, 16, 18, 8, 9, 16, 10, 16, 11, 16, 12, 16, 13,
    16, 14, 16, 15, 16, 18,
];

pub fn run(rt: &impl Print) -> io::Result<()> {
    eight_extracts(rt)?;
    sixteen_columns(rt)
}

fn eight_extracts(rt: &impl Print) -> io::Result<()> {
    plan(
        rt,
        "eight extracts of 8 columns",
        numbers(8, &PAIRS, &COLUMNS),
    )?;
    plan_within(
        rt,
        "eight extracts in a slice of 16",
        numbers(8, &PAIRS, &COLUMNS),
        16,
    )?;
    plan(
        rt,
        "eight extracts of 16 columns",
        numbers(16, &PAIRS, &FELLOWS),
    )?;
    // All but the last pair: columns 6 and 7 come together.
    let pairs = PAIRS;
    plan(rt, "seven extracts", numbers(8, &pairs[..27], &COLUMNS))
}

fn sixteen_columns(rt: &impl Print) -> io::Result<()> {
    plan(rt, "the last column", numbers(16, &[32767], &[15, 18]))?;
    plan(rt, "all 16 columns in one", numbers(16, &[], &HALVES))?;
    plan(rt, "typical", typical::NUMBERS)?;
    plan(rt, "dense", dense::NUMBERS)
}
