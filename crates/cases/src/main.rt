// Worked cases, run and compared with `stdout`: what 01 and the published examples say, and what damaged numbers get.
#![tactic(auto)]

mod damaged; // damaged.rt: random numbers, which must never stop the run
mod fitness; // fitness.rt: each way in which numbers can be unfit, and the limits
mod judging; // judging.rt: each answer of the judge
mod published; // published.rt: the examples of the published sources
mod tabled; // tabled.rt: the tables over all sets
mod verdict; // verdict.rt: how an answer of the judge is written

use std::io;

fn main(rt: HostRuntime) -> io::Result<()> {
    fitness::run(&rt)?;
    judging::run(&rt)?;
    published::run(&rt)?;
    tabled::run(&rt)?;
    damaged::run(&rt)
}
