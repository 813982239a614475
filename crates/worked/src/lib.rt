// What the programs of worked cases share: the jobs that more than one of them uses, random numbers and jobs, lent slices, and a checksum.
#![tactic(auto)]

pub mod checksum; // checksum.rt: a checksum of numbers
pub mod dense; // dense.rt: the numbers of a job with a large diagram
pub mod forming; // forming.rt: random forbidden sets and needs
pub mod lent; // lent.rt: slices before and after a call
pub mod numbers; // numbers.rt: a job's numbers as one value, and answers in numbers
pub mod published; // published.rt: the numbers of the published examples
pub mod random; // random.rt: numbers that look random
pub mod typical; // typical.rt: the numbers of a job as they are in usual use
