// How an answer of the judge is written: a line with the case, the answer's name and its values.
use judge::Verdict;
use std::io;

pub fn write(rt: &impl Print, case: &str, answer: Verdict) -> io::Result<()> {
    match answer {
        Verdict::Unfit => println!(rt; "{case}: unfit"),
        Verdict::Improper(i) => println!(rt; "{case}: improper {i}"),
        Verdict::Forbids(i, j) => println!(rt; "{case}: forbids {i} {j}"),
        Verdict::Shares(i, j) => println!(rt; "{case}: shares {i} {j}"),
        Verdict::Unmet(k) => println!(rt; "{case}: unmet {k}"),
        Verdict::Right => println!(rt; "{case}: right"),
    }
}
