// Whether at most so many sets, taken from the free columns, can meet the unmet needs at such a cost.
ghost use Rattle.std.specs.Prelude.{◌≡◌, ◌&&◌, leb};
ghost use Rattle.rules.specs.Sets.{contains};
ghost use Rattle.parts.specs.Parts.{in_table};
ghost use Rattle.searching.specs.Serving.{Decides};
ghost use Rattle.searching.specs.Prices.{price_of};
ghost use Rattle.searching.specs.Searching.{ServableFrom};

use crate::search::Search;
use crate::{rarest, task};
use columns::ColumnSet;

impl Search<'_> {
    // Whether the set meets all needs that are wanted, at the cost that is left.
    fn suits(&self, set: ColumnSet, wanted: u8) -> bool
        ensures { result ≡ (contains (in_table self.now.lean.now set.bits) wanted && leb (price_of set.bits) self.now.task.cost) }
    {
        self.gained(set) & wanted == wanted && task::price(set) <= self.task.cost
    }

    // Tries every set of the free columns that meets a wanted need, the largest number first, and goes back where nothing comes of it.
    pub fn can(&self) -> bool
        ensures { Decides result (ServableFrom (in_table self.now.lean.now) price_of self.now.task) }
    {
        let task = self.task;
        if task.unmet == 0 || task.extracts == 0 {
            return task.unmet == 0;
        }
        let free = task.free.bits;
        if self.possible[free as usize] & task.unmet != task.unmet {
            return false;
        }
        let wanted = rarest::wanted(self.counts, task.extracts, task.unmet);
        let mut bits = free;
        // from each set down to the next smaller one of the same columns: the step is no count, so there is no range to go over
        while bits != 0 {
            let set = ColumnSet { bits };
            if self.suits(set, wanted) && self.after(set).can() {
                return true;
            }
            bits = (bits - 1) & free;
        }
        false
    }
}
