// Worked cases of what the program `split` writes. Standard input has a case a line, its name and its text; what they give is compared with `stdout`.
// How it is read stands in each such program: a function for it would hand back an array with its length.
#![tactic(auto)]

mod shown; // shown.rt: one call, and what it leaves

use intake::fill;
use spelt::cases::Cases;
use spelt::spelling::spell;
use std::io;

// More bytes than the cases have.
const MOST_READ: usize = 65536;

fn main(rt: HostRuntime) -> io::Result<()> {
    // no heap is taken, so the input is an array that is cut to what came
    let mut input = [0u8; MOST_READ];
    let (end, outcome) = fill(&mut rt.stdin(), &mut input);
    outcome?;
    run(&rt, &input[..end])?;
    shown::rooms(&rt)
}

fn run(rt: &impl Print, input: &[u8]) -> io::Result<()> {
    for case in Cases::new(input) {
        shown::show(rt, case.name, spell(case.spelling).as_bytes())?;
    }
    Ok(())
}
