// Random forbidden sets and needs of fit jobs. That there are 1 to 16 columns is asked of each function: their number is drawn at two places, and a type for it
// would say no more.
ghost use Rattle.std.specs.Prelude.{◌<◌, ◌≤◌};

use crate::random::Random;

// Puts a set of one to three of the columns into every place.
pub fn form_sets(random: &mut Random, sets: &mut [u16], columns: u64)
    requires { (0 < columns) × (columns ≤ 16) }
{
    for place in sets.iter_mut() {
        *place = set(columns, random.next());
    }
}

fn set(columns: u64, random: u64) -> u16
    requires { (0 < columns) × (columns ≤ 16) }
{
    let one = 1u16 << column(columns, random);
    let other = 1u16 << column(columns, random / 65536);
    let third = 1u16 << column(columns, random / 4294967296);
    one | other | third
}

fn column(columns: u64, random: u64) -> u16
    requires { (0 < columns) × (columns ≤ 16) }
    ensures { result < 16 }
{
    (random % columns) as u16
}

// Fills an even number of places with a need, the end mark last.
pub fn form_need(random: &mut Random, marks: &mut [u16], columns: u64)
    requires { (0 < columns) × (columns ≤ 16) }
{
    let mut open: usize = 0;
    let size = marks.len();
    for (i, place) in marks.iter_mut().enumerate() {
        *place = mark(open, size - i, columns, random.next());
        open = opened(open, *place);
    }
}

// The next mark where so many operands wait for a join and so many marks are left: a join must stand if the marks left would not do otherwise.
fn mark(open: usize, left: usize, columns: u64, random: u64) -> u16
    requires { (0 < columns) × (columns ≤ 16) }
{
    if left == 1 {
        18
    } else if 2 <= open && (left <= open || random % 2 == 1) {
        16 + (random / 2 % 2) as u16
    } else {
        column(columns, random / 4)
    }
}

// How many operands wait after a mark.
fn opened(open: usize, mark: u16) -> usize {
    if mark < 16 {
        open.wrapping_add(1)
    } else {
        open.wrapping_sub(1)
    }
}
