// Each answer of the judge, with the smallest indices; and the mistakes that look right.
// The cases are calls, one after the other: in a table of tuples each would take as many lines, and the calls say what they do.
use crate::verdict;
use job::Numbers;
use std::io;
use worked::numbers::numbers;

pub fn judge(rt: &impl Print, case: &str, numbers: Numbers, split: &[u16]) -> io::Result<()> {
    verdict::write(rt, case, judge::judge(numbers, split))
}

pub fn run(rt: &impl Print) -> io::Result<()> {
    improper(rt)?;
    forbidden(rt)?;
    sharing(rt)?;
    unmet(rt)?;
    right(rt)
}

fn improper(rt: &impl Print) -> io::Result<()> {
    judge(rt, "unfit", numbers(2, &[], &[2, 18]), &[1])?;
    judge(rt, "unfit before improper", numbers(17, &[], &[]), &[0])?;
    judge(rt, "empty extract", numbers(3, &[], &[]), &[1, 0, 8])?;
    judge(rt, "missing column", numbers(3, &[], &[]), &[1, 8, 0])?;
    judge(
        rt,
        "improper before forbidden",
        numbers(3, &[1], &[]),
        &[1, 0],
    )
}

fn forbidden(rt: &impl Print) -> io::Result<()> {
    judge(rt, "forbidden set", numbers(4, &[8, 2, 1], &[]), &[4, 3, 8])?;
    judge(
        rt,
        "forbidden set inside a larger extract",
        numbers(3, &[3], &[]),
        &[7],
    )?;
    judge(
        rt,
        "part of a forbidden set",
        numbers(3, &[3], &[]),
        &[2, 4],
    )?;
    judge(
        rt,
        "forbidden before sharing",
        numbers(3, &[6], &[]),
        &[1, 1, 6],
    )
}

fn sharing(rt: &impl Print) -> io::Result<()> {
    judge(rt, "sharing", numbers(4, &[], &[]), &[1, 2, 6, 3])?;
    judge(
        rt,
        "the same extract twice",
        numbers(2, &[], &[0, 18]),
        &[2, 1, 1],
    )?;
    judge(
        rt,
        "sharing before a need",
        numbers(3, &[], &[2, 18]),
        &[1, 3],
    )?;
    judge(rt, "3,000 extracts", numbers(16, &[], &[]), &[1u16; 3000])
}

fn unmet(rt: &impl Print) -> io::Result<()> {
    judge(
        rt,
        "need in no extract",
        numbers(3, &[], &[0, 18, 2, 18, 1, 18]),
        &[1],
    )?;
    judge(
        rt,
        "need across extracts",
        numbers(2, &[3], &[0, 1, 16, 18]),
        &[1, 2],
    )?;
    judge(
        rt,
        "need with a choice",
        numbers(2, &[3], &[0, 1, 17, 18]),
        &[2],
    )?;
    judge(rt, "no extracts for a need", numbers(1, &[], &[0, 18]), &[])
}

fn right(rt: &impl Print) -> io::Result<()> {
    judge(rt, "no extracts for no needs", numbers(1, &[], &[]), &[])?;
    judge(
        rt,
        "more extracts than needed",
        numbers(3, &[], &[0, 18]),
        &[4, 2, 1],
    )?;
    judge(
        rt,
        "all 16 columns",
        numbers(16, &[], &[0, 1, 16, 18]),
        &[65535],
    )?;
    judge(
        rt,
        "the last column alone",
        numbers(16, &[], &[15, 18]),
        &[1, 32768],
    )
}
