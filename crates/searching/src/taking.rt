// The sets of the best list, one after the other: each is the smallest that a best list can go on with. Since a best list rises, none below the
// one before is tried again. A set with a column too many is in no best list, so the lean table has all that is needed.
ghost use Rattle.std.specs.Prelude.{◌≤◌, ◌<◌, length};
ghost use Rattle.parts.specs.Parts.{in_table};
ghost use Rattle.searching.specs.Serving.{Decides};
ghost use Rattle.searching.specs.Prices.{price_of};
ghost use Rattle.searching.specs.Searching.{Next, SomeNext, FirstNext, LeastFrom, Taken};

use crate::search::Search;
use crate::task;
use columns::{ALL_SETS, ColumnSet};

impl Search<'_> {
    // Whether the set meets an unmet need and leaves what the further sets can serve. The test of the cost stands before the search.
    fn is_next(&self, set: ColumnSet) -> bool
        requires { 0 < self.now.task.extracts }
        ensures { Decides result (Next (in_table self.now.lean.now) price_of self.now.task set.bits) }
    {
        if self.gained(set) & self.task.unmet == 0
            || !self.task.free.contains(set)
            || self.task.cost < task::price(set)
        {
            return false;
        }
        self.after(set).can()
    }

    // The smallest set, from a number on, that a best list goes on with.
    fn next(&self, from: usize) -> ColumnSet
        requires { SomeNext (in_table self.now.lean.now) price_of self.now.task from }
        ensures { FirstNext (in_table self.now.lean.now) price_of self.now.task from result.bits }
    {
        for number in from..ALL_SETS {
            let set = ColumnSet {
                bits: number as u16,
            };
            if self.is_next(set) {
                return set;
            }
        }
        ColumnSet::EMPTY // not reached, since a best list goes on with some set
    }

    // Writes the sets of the best list.
    pub fn take(&self, extracts: &mut [u16])
        requires { (self.now.task.extracts ≤ length extracts.old) × LeastFrom (in_table self.now.lean.now) price_of self.now.task }
        ensures { Taken (in_table self.now.lean.now) price_of self.now.task extracts.old extracts.new }
    {
        let _unmet = self.task.unmet; // read, so that the proof knows its range
        let mut search = *self;
        let mut from = 0;
        for place in 0..self.task.extracts as usize {
            let set = search.next(from);
            extracts[place] = set.bits;
            search = search.after(set);
            from = set.bits as usize + 1;
        }
    }
}
