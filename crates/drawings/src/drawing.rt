// Cases of the diagram, which the one-paths go through too: 01's small table, the constants, and each refusal. A line has the answer, the nodes
// that were written, and how many places of the column, low and high slices hold what they held before.
use crate::lent::{Nodes, Rooms};
use crate::listing;
use diagram::Drawn;
use job::Numbers;
use std::io;
use worked::numbers::{in_numbers, numbers};

pub fn run(rt: &impl Print) -> io::Result<()> {
    small_table(rt)?;
    no_need(rt)?;
    unfit(rt)?;
    too_short(rt)
}

// 01, "Small table to be proved".
fn small_table(rt: &impl Print) -> io::Result<()> {
    both(rt, "case 1", numbers(1, &[], &[0, 18]), 0)?;
    both(rt, "case 2", numbers(2, &[3], &[0, 1, 17, 18]), 0)?;
    both(rt, "case 3", numbers(2, &[], &[0, 1, 17, 18]), 0)?;
    both(rt, "case 4", numbers(2, &[3], &[0, 1, 16, 18]), 0)
}

// True of every set without a forbidden one: of all sets, of the empty set alone, of all but the full set.
fn no_need(rt: &impl Print) -> io::Result<()> {
    both(rt, "nothing forbidden", numbers(16, &[], &[]), 0)?;
    both(
        rt,
        "each column forbidden",
        numbers(2, &[1, 2], &[0, 18]),
        1,
    )?;
    both(rt, "all columns forbidden", numbers(3, &[7], &[0, 18]), 1)
}

// Unfit numbers, and no need of that index, even if the slices are too short as well.
fn unfit(rt: &impl Print) -> io::Result<()> {
    both(rt, "a missing column", numbers(2, &[4], &[0, 18]), 0)?;
    both_within(
        rt,
        "one past no need",
        1,
        2,
        Rooms::for_nodes(8445, 8445, 8445),
    )?;
    both_within(
        rt,
        "no columns, too short",
        0,
        0,
        Rooms::for_nodes(8444, 8444, 8444),
    )?;
    both_within(
        rt,
        "one past no need, too short",
        1,
        2,
        Rooms::for_nodes(0, 0, 0),
    )
}

fn too_short(rt: &impl Print) -> io::Result<()> {
    both_within(
        rt,
        "column of 8,444",
        1,
        0,
        Rooms::for_nodes(8444, 8445, 8445),
    )?;
    both_within(rt, "low of 8,444", 1, 0, Rooms::for_nodes(8445, 8444, 8445))?;
    both_within(
        rt,
        "high of 8,444",
        1,
        0,
        Rooms::for_nodes(8445, 8445, 8444),
    )?;
    both_within(rt, "slices of no place", 1, 0, Rooms::for_nodes(0, 0, 0))?;
    both_within(
        rt,
        "slices of 8,445",
        1,
        0,
        Rooms::for_nodes(8445, 8445, 8445),
    )
}

// The diagram, and then the one-paths, with as many places as any diagram needs.
fn both(rt: &impl Print, case: &str, numbers: Numbers, chosen: usize) -> io::Result<()> {
    let rooms = Rooms::for_paths(16, 16);
    draw(rt, case, numbers, chosen, rooms)?;
    listing::list(rt, case, numbers, chosen, rooms)
}

// One need, of column 0 alone, with slices of these lengths.
fn both_within(
    rt: &impl Print,
    case: &str,
    columns: usize,
    chosen: usize,
    rooms: Rooms,
) -> io::Result<()> {
    let numbers = numbers(columns, &[], &[0, 18]);
    draw(rt, case, numbers, chosen, rooms)?;
    listing::list(rt, case, numbers, chosen, rooms)
}

fn draw(
    rt: &impl Print,
    case: &str,
    numbers: Numbers,
    chosen: usize,
    rooms: Rooms,
) -> io::Result<()> {
    let mut nodes = Nodes::new(rooms);
    let drawn = diagram::diagram(
        numbers,
        chosen,
        nodes.column.as_mut_slice(),
        nodes.low.as_mut_slice(),
        nodes.high.as_mut_slice(),
    );
    let (refusal, drawn) = in_numbers(drawn, Drawn { root: 0, count: 0 });
    print!(rt; "diagram, {case}: refusal {refusal}, ")?;
    println!(rt; "root {}, count {}{nodes}", drawn.root, drawn.count)
}
