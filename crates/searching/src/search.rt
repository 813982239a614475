// A search: the tables that it reads, and what is still to be done.
ghost use Rattle.std.specs.Prelude.{◌≡◌, ◌≤◌, ◌<◌};
ghost use Rattle.parts.specs.Parts.{in_table, Bounded};
ghost use Rattle.searching.specs.Prices.{price_of};
ghost use Rattle.searching.specs.Searching.{left_after};

use crate::task::Task;
use columns::{ALL_SETS, ColumnSet};

// What each set meets, what is possible within each, and how many sets meet each need. The tables are right within the columns that are free, so
// no method asks for that.
#[derive(Clone, Copy)]
pub struct Search<'a> {
    pub lean: &'a [u8; ALL_SETS],
    pub possible: &'a [u8; ALL_SETS],
    pub counts: &'a [usize; 8],
    pub task: Task,
    ghost bounded: { Bounded (in_table lean.now) (in_table possible.now) task.free.bits },
}

impl Search<'_> {
    // The needs that the set meets.
    pub fn gained(&self, set: ColumnSet) -> u8
        ensures { result ≡ in_table self.now.lean.now set.bits }
    {
        self.lean[set.bits as usize]
    }

    // The search for so many sets at such a cost, from the same columns for the same needs.
    pub fn within(&self, extracts: u16, cost: u32) -> Self
        ensures lean { result.lean.now ≡ self.now.lean.now }
        ensures task { result.task ≡ (record { extracts = extracts; free = self.now.task.free; unmet = self.now.task.unmet; cost = cost }) }
    {
        let task = Task {
            extracts,
            cost,
            ..self.task
        };
        Self {
            task,
            lean: self.lean,
            possible: self.possible,
            counts: self.counts,
        }
    }

    // The search that is left when a set is taken.
    pub fn after(&self, set: ColumnSet) -> Self
        requires { (0 < self.now.task.extracts) × (price_of set.bits ≤ self.now.task.cost) }
        ensures lean { result.lean.now ≡ self.now.lean.now }
        ensures task { result.task ≡ left_after price_of self.now.task set.bits (in_table self.now.lean.now set.bits) }
    {
        let task = self.task.after(set, self.gained(set));
        Self {
            task,
            lean: self.lean,
            possible: self.possible,
            counts: self.counts,
        }
    }
}
