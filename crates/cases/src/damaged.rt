// Random numbers: nothing stops the run, whatever is given. The counts show that every answer is reached.
ghost use Rattle.std.specs.Prelude.{◌<◌};

use judge::Verdict;
use std::fmt::{self, Display, Formatter, Write};
use std::io;
use worked::numbers::numbers;
use worked::random::Random;

// How often each answer came.
#[derive(Clone, Copy, Default)]
struct Counts {
    unfit: usize,
    improper: usize,
    forbids: usize,
    shares: usize,
    unmet: usize,
    right: usize,
}

impl Counts {
    fn add(&mut self, answer: Verdict) {
        let count = match answer {
            Verdict::Unfit => &mut self.unfit,
            Verdict::Improper(_) => &mut self.improper,
            Verdict::Forbids(_, _) => &mut self.forbids,
            Verdict::Shares(_, _) => &mut self.shares,
            Verdict::Unmet(_) => &mut self.unmet,
            Verdict::Right => &mut self.right,
        };
        *count = count.wrapping_add(1);
    }
}

impl Display for Counts {
    fn fmt<W: Write>(&self, f: &mut Formatter<W>) -> fmt::Result {
        write!(f, "unfit {}, improper {}, ", self.unfit, self.improper)?;
        write!(f, "forbids {}, shares {}, ", self.forbids, self.shares)?;
        write!(f, "unmet {}, right {}", self.unmet, self.right)
    }
}

// Puts a number below the bound into every place.
fn fill(random: &mut Random, numbers: &mut [u16], bound: u16)
    requires { 0 < bound }
{
    for number in numbers.iter_mut() {
        *number = (random.next() % 65536) as u16 % bound;
    }
}

// Closes every four marks as a need of two columns: a join, then the end mark.
fn shape(marks: &mut [u16]) {
    for need in marks.chunks_exact_mut(4) {
        if let [_, _, join, end] = need {
            *join = 16 + *join % 2;
            *end = 18;
        }
    }
}

// Puts any mark at a place, if it is one of theirs.
fn damage(marks: &mut [u16], place: usize, mark: u16) {
    if let Some(damaged) = marks.get_mut(place) {
        *damaged = mark;
    }
}

// Any numbers at all: lengths within and past the limits, marks and sets of 16 bits.
fn noise(random: &mut Random) -> Verdict {
    let mut forbidden = [0u16; 40];
    let mut marks = [0u16; 600];
    let mut split = [0u16; 20];
    fill(random, &mut forbidden, 65535);
    fill(random, &mut marks, 20);
    fill(random, &mut split, 65535);
    let drawn = random.latest();
    let sets = (drawn / 64 % 41) as usize;
    let marked = (drawn / 4096 % 601) as usize;
    let extracts = (drawn / 4194304 % 21) as usize;
    let columns = (drawn % 20) as usize;
    let numbers = numbers(columns, &forbidden[..sets], &marks[..marked]);
    judge::judge(numbers, &split[..extracts])
}

// Numbers that are fit but for small damage, and a split of few columns.
fn nearly_fit(random: &mut Random) -> Verdict {
    let mut forbidden = [0u16; 2];
    let mut marks = [0u16; 16];
    let mut split = [0u16; 4];
    fill(random, &mut forbidden, 64);
    fill(random, &mut marks, 6);
    fill(random, &mut split, 64);
    shape(&mut marks);
    let drawn = random.latest();
    let sets = (drawn / 64 % 3) as usize;
    let needs = (drawn / 256 % 5) as usize;
    let extracts = (drawn / 2048 % 5) as usize;
    damage(
        &mut marks,
        (drawn / 16384 % 256) as usize,
        (drawn / 4194304 % 20) as u16,
    );
    let numbers = numbers(6, &forbidden[..sets], &marks[..4 * needs]);
    judge::judge(numbers, &split[..extracts])
}

pub fn run(rt: &impl Print) -> io::Result<()> {
    let mut random = Random::new(88172645463325252);
    let mut counts = Counts::default();
    for _ in 0..20000 {
        counts.add(noise(&mut random));
        counts.add(nearly_fit(&mut random));
    }
    println!(rt; "random numbers: {counts}")
}
