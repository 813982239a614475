// The least number of sets that meet the needs, and the least cost of so many.
ghost use Rattle.std.specs.Prelude.{◌+◌, ◌≤◌, IfSome, unwrap_or};
ghost use Rattle.parts.specs.Parts.{in_table};
ghost use Rattle.searching.specs.Serving.{Servable};
ghost use Rattle.searching.specs.Prices.{price_of};
ghost use Rattle.searching.specs.Searching.{Fewest, Cheapest};

use crate::search::Search;
use crate::task;

impl Search<'_> {
    // The least number of sets, each more being tried in turn; none if no more than so many serve.
    pub fn fewest(&self, most: u16) -> Option<u16>
        requires { most ≤ 8 }
        ensures near { IfSome result (λ count. count ≤ most) }
        ensures fewest { Fewest (in_table self.now.lean.now) price_of most self.now.task.free.bits self.now.task.unmet (unwrap_or result (most + 1)) }
    {
        let cost = task::price(self.task.free);
        for extracts in 0..most + 1 {
            if self.within(extracts, cost).can() {
                return Some(extracts);
            }
        }
        None
    }

    // The least cost of so many sets, by halving: it lies from `low` to `high`, and neither counts by one, so there is no range to go over. The
    // middle is reached from `low`, so no sum wraps, whatever sets cost.
    pub fn cheapest(&self, extracts: u16) -> u32
        requires { Servable (in_table self.now.lean.now) price_of extracts self.now.task.free.bits self.now.task.unmet (price_of self.now.task.free.bits) }
        ensures { Cheapest (in_table self.now.lean.now) price_of extracts self.now.task.free.bits self.now.task.unmet result }
    {
        let mut low = 0;
        let mut high = task::price(self.task.free);
        while low < high {
            let middle = low + (high - low) / 2;
            if self.within(extracts, middle).can() {
                high = middle;
            } else {
                low = middle + 1;
            }
        }
        high
    }
}
