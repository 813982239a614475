// A job with its columns in the other order.
ghost use Rattle.std.specs.Prelude.{◌≡◌, map, ◌≤◌};
ghost use Rattle.tables.specs.Tables.{mirror as mirror_of};
ghost use Rattle.tables.specs.Mirrored.{mirrored_mark, mirrored_job};

use job::Job;

// The set with its columns in the other order: each further column goes below those before it.
fn mirror(set: u16, columns: u16) -> u16
    requires { columns ≤ 16 }
    ensures { result ≡ mirror_of columns set }
{
    let mut mirrored = 0;
    for column in 0..columns {
        mirrored = mirrored * 2 + (set >> column) % 2;
    }
    mirrored
}

// A mark of one of the columns becomes that of the column as far from the other end, every other mark stays.
fn mirrored_mark(mark: u16, columns: u16) -> u16
    ensures { result ≡ mirrored_mark columns mark }
{
    if mark < columns {
        columns - 1 - mark
    } else {
        mark
    }
}

// Every mark with the columns in the other order. In place: `map` of an array takes each of the 512 through an Option, and the diagram of a small job then
// takes 2.8 times as long.
fn mirror_marks(marks: &mut [u16], columns: u16)
    ensures { marks.new ≡ map (mirrored_mark columns) marks.old }
{
    for mark in marks.iter_mut() {
        *mark = mirrored_mark(*mark, columns);
    }
}

// The job whose forbidden sets and needs name the columns in the other order. Places without a number are changed too: nothing reads them.
pub fn mirrored_job(job: &Job) -> Job
    requires { job.now.columns ≤ 16 }
    ensures { result ≡ mirrored_job job.now }
{
    let columns = job.columns;
    let mut mirrored = Job {
        forbidden: job.forbidden.map(|set| mirror(set, columns)),
        ..*job
    };
    mirror_marks(&mut mirrored.marks, columns);
    mirrored
}
