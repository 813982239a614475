// For every set of columns, whether it is safe and which needs it gains: what the diagram and the planner read.
#![tactic(auto)]

use columns::ALL_SETS;
use job::Job;

mod words; // words.rt: tables of a bit for each set
mod gained; // gained.rt: tables of a byte for each set
mod mirrored; // mirrored.rt: a job with its columns in the other order

ghost use Rattle.std.specs.Prelude.{◌≡◌, ◌*◌, ◌≤◌, replicate};
ghost use Rattle.rules.specs.Options.{Some};
ghost use Rattle.rules.specs.Sets.{all_sets};
ghost use Rattle.rules.specs.Jobs.{Job as Meant};
ghost use Rattle.rules.specs.Numbers.{job_of};
ghost use Rattle.rules.specs.Conditions.{condition, gain};
ghost use Rattle.job.specs.Records.{numbers_in, Sound};
ghost use Rattle.tables.specs.Tables.{blocks, Tells, Valued, Stays, mirror};

// How many blocks of 64 sets the sets of 16 columns are: a table with a bit for each set has so many words, in fixed memory.
pub const ALL_BLOCKS: usize = 1024;

// That a job is sound is asked by a clause and not by its type: the job of no columns, which `job::no_job` gives, is not sound.

// The condition of a chosen need at every set of the job's columns. The index equal to the number of needs stands for "no need".
pub fn conditions(job: &Job, chosen: usize, table: &mut [u64; ALL_BLOCKS])
    requires { Sound job.now × (chosen ≤ job.now.needs) }
    ensures told { (j : Meant) → job_of (numbers_in job.now) ≡ Some j → Tells (blocks job.now.columns) (condition j chosen) table.new }
    ensures stays { Stays (blocks job.now.columns) table.old table.new }
{
    let count = words::block_count(job.columns);
    let places = &mut table[..count];
    if chosen < job.needs {
        let rows = job::rows::rows_of(&job.marks[..job.marked]);
        let row = rows[chosen]; // copied where it is evaluated, as 01 names it
        words::meet(&row, places);
    } else {
        words::hold(places);
    }
    words::forbid_all(&job.forbidden[..job.sets], places);
}

// The condition as above, with the columns in the other order: the set at a place of the table is the mirror of the place.
pub fn mirrored_conditions(job: &Job, chosen: usize, table: &mut [u64; ALL_BLOCKS])
    requires { Sound job.now × (chosen ≤ job.now.needs) }
    ensures told { (j : Meant) → job_of (numbers_in job.now) ≡ Some j → Tells (blocks job.now.columns) (λ place. condition j chosen (mirror job.now.columns place)) table.new }
    ensures stays { Stays (blocks job.now.columns) table.old table.new }
{
    let turned = mirrored::mirrored_job(job);
    conditions(&turned, chosen, table);
}

// Which needs every set of the job's columns gains: need k is bit k. A need is gained wherever its condition holds. The table has been 0.
pub fn gains(job: &Job, table: &mut [u8; ALL_SETS])
    requires { Sound job.now × (table.old ≡ replicate all_sets 0) }
    ensures told { (j : Meant) → job_of (numbers_in job.now) ≡ Some j → Valued (64 * blocks job.now.columns) (gain j) table.new }
    ensures stays { Stays (64 * blocks job.now.columns) table.old table.new }
{
    let count = words::block_count(job.columns);
    let mut met = [0u64; ALL_BLOCKS];
    for k in 0..job.needs {
        conditions(job, k, &mut met);
        gained::add(&met[..count], k, &mut table[..64 * count]);
    }
}
