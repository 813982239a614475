// Random fit jobs of up to 10 columns, 8 forbidden sets and eight needs: a line after every 50 jobs, in which all answers so far are added up.

use crate::planning::Extracts;
use job::refusals::Refusal;
use std::fmt::{self, Display, Formatter, Write};
use std::io;
use worked::checksum::Checksum;
use worked::forming;
use worked::numbers::{in_numbers, numbers};
use worked::random::Random;

// What has been added up so far.
#[derive(Clone, Copy, Default)]
struct Sums {
    refusals: usize,
    counts: usize,
    checksum: Checksum,
}

impl Sums {
    // The checksum goes over all places, so that those that must stay are seen.
    fn add(&mut self, planned: Result<u16, Refusal>, extracts: &[u16]) {
        let (refusal, count) = in_numbers(planned, 0);
        self.refusals = self.refusals.wrapping_add(refusal.into());
        self.counts = self.counts.wrapping_add(count.into());
        self.checksum.add(refusal.into());
        self.checksum.add(count.into());
        self.checksum.add_all(extracts);
    }
}

impl Display for Sums {
    fn fmt<W: Write>(&self, f: &mut Formatter<W>) -> fmt::Result {
        write!(
            f,
            "refusals {}, counts {}, checksum {}",
            self.refusals, self.counts, self.checksum
        )
    }
}

pub fn run(rt: &impl Print) -> io::Result<()> {
    let mut random = Random::new(2685821657736338717);
    let mut sums = Sums::default();
    for jobs in 1u32..301 {
        one_more(&mut random, &mut sums);
        if jobs % 50 == 0 {
            println!(rt; "random jobs {jobs}: {sums}")?;
        }
    }
    Ok(())
}

// One job, with a slice of 8 to 16 places. Its needs have one to three column marks.
fn one_more(random: &mut Random, sums: &mut Sums) {
    let drawn = random.next();
    let columns = drawn % 10 + 1;
    let sets = (drawn / 16 % 9) as usize;
    let needs = (drawn / 1024 % 9) as usize;
    let room = (drawn / 16384 % 9) as usize + 8;
    let size = (drawn / 262144 % 3) as usize * 2 + 2;
    let mut forbidden = [0u16; 8];
    let mut marks = [0u16; 48];
    forming::form_sets(random, &mut forbidden, columns);
    let marks = &mut marks[..needs * size];
    for need in marks.chunks_exact_mut(size) {
        forming::form_need(random, need, columns);
    }
    let mut extracts = Extracts::new(room);
    let numbers = numbers(columns as usize, &forbidden[..sets], marks);
    let planned = planner::plan(numbers, extracts.as_mut_slice());
    sums.add(planned, extracts.as_slice());
}
