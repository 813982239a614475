// Random fit jobs of up to 10 columns: their diagrams and one-paths, added up.
use crate::lent::{NONE_LISTED, Nodes, Paths, Rooms};
use diagram::Listed;
use job::refusals::Refusal;
use std::fmt::{self, Display, Formatter, Write};
use std::io;
use worked::checksum::Checksum;
use worked::forming;
use worked::numbers::{in_numbers, numbers};
use worked::random::Random;

// What has been added up so far.
#[derive(Clone, Copy, Default)]
struct Sums {
    refusals: usize,
    roots: usize,
    counts: usize,
    paths: usize,
    checksum: Checksum,
}

impl Sums {
    fn add(&mut self, answer: Result<Listed, Refusal>, nodes: &Nodes, paths: &Paths) {
        let (refusal, listed) = in_numbers(answer, NONE_LISTED);
        self.refusals = self.refusals.wrapping_add(usize::from(refusal));
        self.roots = self.roots.wrapping_add(usize::from(listed.root));
        self.counts = self.counts.wrapping_add(usize::from(listed.count));
        self.paths = self.paths.wrapping_add(usize::from(listed.paths));
        nodes.add_to(&mut self.checksum);
        paths.add_to(&mut self.checksum);
    }
}

impl Display for Sums {
    fn fmt<W: Write>(&self, f: &mut Formatter<W>) -> fmt::Result {
        write!(f, "refusals {}, roots {}, ", self.refusals, self.roots)?;
        write!(f, "counts {}, paths {}, ", self.counts, self.paths)?;
        write!(f, "checksum {}", self.checksum)
    }
}

pub fn run(rt: &impl Print) -> io::Result<()> {
    let mut random = Random::new(2685821657736338717);
    let mut sums = Sums::default();
    // the same slices for all jobs: made anew for each they would be copied, and the run would take a quarter to a third longer
    let rooms = Rooms::for_paths(512, 512);
    let mut nodes = Nodes::new(rooms);
    let mut paths = Paths::new(rooms);
    for _ in 0..300 {
        nodes.renew();
        paths.renew();
        one_more(&mut random, &mut nodes, &mut paths, &mut sums);
    }
    println!(rt; "300 random jobs: {sums}")
}

// One job: up to 4 sets of up to 3 columns, a need of up to 16 column marks; one in eight asks for "no need".
fn one_more(random: &mut Random, nodes: &mut Nodes, paths: &mut Paths, sums: &mut Sums) {
    let drawn = random.next();
    let columns = drawn % 10 + 1;
    let sets = (drawn / 16 % 5) as usize;
    let marked = (drawn / 256 % 16) as usize * 2 + 2;
    let chosen = (drawn / 4096 % 8 / 7) as usize;
    let mut forbidden = [0u16; 4];
    let mut marks = [0u16; 32];
    forming::form_sets(random, &mut forbidden, columns);
    forming::form_need(random, &mut marks[..marked], columns);
    let listed = diagram::one_paths(
        numbers(columns as usize, &forbidden[..sets], &marks[..marked]),
        chosen,
        nodes.column.as_mut_slice(),
        nodes.low.as_mut_slice(),
        nodes.high.as_mut_slice(),
        paths.ones.as_mut_slice(),
        paths.zeros.as_mut_slice(),
    );
    sums.add(listed, nodes, paths);
}
