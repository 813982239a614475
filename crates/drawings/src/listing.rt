// Cases of the one-paths: the published ones, path slices that are just long enough or not, and a diagram of thousands of nodes. A line has
// the answer, the first nodes and paths that were written, how many places of the five slices hold what they held before, and a checksum of all.
// The cases are calls, one after the other: in a table of tuples each would take as many lines, and the calls say what they do.
use crate::lent::{NONE_LISTED, Nodes, Paths, Rooms};
use job::Numbers;
use std::io;
use worked::checksum::Checksum;
use worked::numbers::{in_numbers, numbers};
use worked::{dense, published};

pub fn run(rt: &impl Print) -> io::Result<()> {
    published(rt)?;
    path_places(rt)?;
    no_path_places(rt)?;
    list(
        rt,
        "dense",
        dense::NUMBERS,
        0,
        Rooms::for_paths(16384, 16384),
    )
}

// 000, Figure 10, has the one-paths of the needs v1, v2 and v3 as I3, I1 and I2, those with most free columns first.
fn published(rt: &impl Print) -> io::Result<()> {
    each_need(rt, "000", published::CENSUS)?;
    each_need(rt, "001", published::PATIENTS)?;
    each_need(rt, "01", published::VOLUNTEERS)
}

// Three needs, and no need.
fn each_need(rt: &impl Print, case: &str, numbers: Numbers) -> io::Result<()> {
    for chosen in 0..4 {
        list(rt, case, numbers, chosen, Rooms::for_paths(16, 16))?;
    }
    Ok(())
}

// A need with two paths. With too few places for the paths the diagram is written all the same.
fn path_places(rt: &impl Print) -> io::Result<()> {
    let two = numbers(2, &[], &[0, 1, 17, 18]);
    list(rt, "both paths fit", two, 0, Rooms::for_paths(2, 2))?;
    list(rt, "ones one short", two, 0, Rooms::for_paths(1, 2))?;
    list(rt, "zeros one short", two, 0, Rooms::for_paths(2, 1))?;
    list(rt, "zeros longer", two, 0, Rooms::for_paths(2, 7))?;
    list(rt, "no place for two", two, 0, Rooms::for_paths(0, 0))
}

// One path, and none, which has enough places.
fn no_path_places(rt: &impl Print) -> io::Result<()> {
    let rooms = Rooms::for_paths(0, 0);
    list(rt, "no place for one", numbers(16, &[], &[]), 0, rooms)?;
    let never = numbers(2, &[3], &[0, 1, 16, 18]);
    list(rt, "no place for none", never, 0, rooms)
}

// With slices of these lengths.
pub fn list(
    rt: &impl Print,
    case: &str,
    numbers: Numbers,
    chosen: usize,
    rooms: Rooms,
) -> io::Result<()> {
    let mut nodes = Nodes::new(rooms);
    let mut paths = Paths::new(rooms);
    let listed = diagram::one_paths(
        numbers,
        chosen,
        nodes.column.as_mut_slice(),
        nodes.low.as_mut_slice(),
        nodes.high.as_mut_slice(),
        paths.ones.as_mut_slice(),
        paths.zeros.as_mut_slice(),
    );
    let (refusal, listed) = in_numbers(listed, NONE_LISTED);
    print!(rt; "one-paths, {case}, index {chosen}: refusal {refusal}, ")?;
    print!(rt;
        "root {}, count {}, paths {}",
        listed.root, listed.count, listed.paths
    )?;
    let mut checksum = Checksum::default();
    nodes.add_to(&mut checksum);
    paths.add_to(&mut checksum);
    println!(rt; "{nodes}{paths}, checksum {checksum}")
}
