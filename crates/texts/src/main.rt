// Worked cases of reading a job text. Standard input has a case a line, its name and its text; what they give is compared with `stdout`.
// How it is read stands in each such program: a function for it would hand back an array with its length.
#![tactic(auto)]

mod answers; // answers.rt: one call, and its line
mod damaged; // damaged.rt: texts with one byte left out, put in or changed

use damaged::Sums;
use intake::fill;
use spelt::cases::Cases;
use spelt::spelling::spell;
use std::io;
use worked::random::Random;

// More bytes than the cases have.
const MOST_READ: usize = 65536;

fn main(rt: HostRuntime) -> io::Result<()> {
    // no heap is taken, so the input is an array that is cut to what came
    let mut input = [0u8; MOST_READ];
    let (end, outcome) = fill(&mut rt.stdin(), &mut input);
    outcome?;
    run(&rt, &input[..end])
}

fn run(rt: &impl Print, input: &[u8]) -> io::Result<()> {
    let mut random = Random::new(2685821657736338717);
    let mut sums = Sums::default();
    for case in Cases::new(input) {
        let text = spell(case.spelling);
        answers::show(rt, case.name, text.as_bytes())?;
        sums.add_damaged(&mut random, text.as_bytes());
    }
    println!(rt; "damaged texts {sums}")
}
