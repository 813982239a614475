// One call of the reader and its line: the case, the answer, and a checksum of every number and byte of it.
use job::refusals::Fault;
use job::{MOST_FORBIDDEN, MOST_MARKS};
use std::io;
use text::JobRead;
use text::table::NAMES;
use worked::checksum::Checksum;

// How many numbers and bytes a job and its names have.
const PLACES: usize = 4 + MOST_MARKS + MOST_FORBIDDEN + NAMES;

pub fn show(rt: &impl Print, case: &[u8], given: &[u8]) -> io::Result<()> {
    let answer = text::read(given);
    rt.write_all(case)?;
    match &answer {
        Ok(read) => show_job(rt, read)?,
        Err(fault) => {
            print!(rt; ": refusal {} at {}", u16::from(fault.refusal), fault.place)?;
        }
    }
    let mut checksum = Checksum::default();
    add_answer(&mut checksum, &answer);
    println!(rt; ", checksum {checksum}")
}

fn show_job(rt: &impl Print, read: &JobRead) -> io::Result<()> {
    let job = &read.job;
    print!(rt; ": columns {}", job.columns)?;
    show_first(rt, ", sets", &job.forbidden, job.sets)?;
    show_first(rt, ", marks", &job.marks, job.marked)
}

// Writes the first so many numbers.
fn show_first(rt: &impl Print, words: &str, numbers: &[u16], count: usize) -> io::Result<()> {
    print!(rt; "{words}")?;
    for number in numbers.iter().take(count) {
        print!(rt; " {number}")?;
    }
    Ok(())
}

// Every number and byte of an answer: the refusal's number and its place, then the job and its names. What there is none of counts as 0.
pub fn add_answer(checksum: &mut Checksum, answer: &Result<JobRead, Fault>) {
    match answer {
        Ok(read) => {
            checksum.add_all(&[0u16; 2]);
            add_job(checksum, read);
        }
        Err(fault) => {
            checksum.add(u16::from(fault.refusal).into());
            checksum.add(fault.place as u64);
            checksum.add_all(&[0u16; PLACES]);
        }
    }
}

fn add_job(checksum: &mut Checksum, read: &JobRead) {
    let job = &read.job;
    checksum.add(job.columns.into());
    checksum.add(job.sets as u64);
    checksum.add(job.needs as u64);
    checksum.add(job.marked as u64);
    checksum.add_all(&job.marks);
    checksum.add_all(&job.forbidden);
    for byte in &read.names {
        checksum.add((*byte).into());
    }
}
