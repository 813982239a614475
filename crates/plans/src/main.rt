// Worked cases of the planner, run and compared with `stdout`.
#![tactic(auto)]

mod impossible; // impossible.rt: jobs without a correct split
mod large; // large.rt: eight extracts, 16 columns, and the limits
mod planning; // planning.rt: one call, and its line
mod published; // published.rt: the published examples and the one of 01's program
mod refused; // refused.rt: unfit numbers and short slices
mod repeated; // repeated.rt: lines that stand twice or in another order
mod sampled; // sampled.rt: random fit jobs
mod tabled; // tabled.rt: 01's small table
mod tied; // tied.rt: splits of which only the first in the order is right

use std::io;

fn main(rt: HostRuntime) -> io::Result<()> {
    tabled::run(&rt)?;
    published::run(&rt)?;
    impossible::run(&rt)?;
    tied::run(&rt)?;
    repeated::run(&rt)?;
    large::run(&rt)?;
    refused::run(&rt)?;
    sampled::run(&rt)
}
