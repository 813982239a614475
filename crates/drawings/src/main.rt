// Worked cases of the diagram and its one-paths, run and compared with `stdout`.
#![tactic(auto)]

mod drawing; // drawing.rt: the diagram, node for node, and its refusals
mod lent; // lent.rt: lent slices before and after a call
mod listing; // listing.rt: the one-paths, the published ones among them
mod sampled; // sampled.rt: random fit jobs, their diagrams and one-paths added up

use std::io;

fn main(rt: HostRuntime) -> io::Result<()> {
    drawing::run(&rt)?;
    listing::run(&rt)?;
    sampled::run(&rt)
}
