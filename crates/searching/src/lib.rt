// The best list of sets that meet all needs: the fewest sets, then the least cost, then the smallest numbers. Which needs a set meets is said
// by a table, and what it costs by `task::price`; nothing here looks at a job.
#![tactic(auto)]

use columns::{ALL_SETS, ColumnSet};
use search::Search;
use task::Task;

mod task; // task.rt: what is still to be done, and what sets cost
mod search; // search.rt: the tables and the task that a search goes by
mod rarest; // rarest.rt: which need is tried first
mod serve; // serve.rt: whether so many sets can meet the needs at such a cost
mod least; // least.rt: the least number of sets, and the least cost
mod taking; // taking.rt: the sets of the best list, one after the other

ghost use Rattle.std.specs.Prelude.{◌≡◌, ◌+◌, ◌≤◌, length, IfSome, unwrap_or};
ghost use Rattle.rules.specs.Sets.{full};
ghost use Rattle.parts.specs.Parts.{in_table};
ghost use Rattle.searching.specs.Prices.{price_of};
ghost use Rattle.searching.specs.Searching.{Searched};

// Writes the best list over the first places and answers how many sets it has, which is never more than there are needs; none if no list meets
// all needs.
pub fn best(gains: &[u8; ALL_SETS], columns: u16, needs: u16, extracts: &mut [u16]) -> Option<u16>
    requires { (columns ≤ 16) × (needs ≤ 8) × (needs ≤ length extracts.old) × (in_table gains.now 0 ≡ 0) }
    ensures near { IfSome result (λ count. count ≤ needs) }
    ensures searched { Searched (in_table gains.now) price_of (full columns) (full needs) needs (unwrap_or result (needs + 1))
        extracts.old extracts.new }
{
    // a place for each set, found by its number: the project allocates nothing, so the tables are as large as they can be asked to be
    let mut lean = [0u8; ALL_SETS];
    let mut possible = [0u8; ALL_SETS];
    parts::fill(gains, columns, &mut lean, &mut possible);
    let counts = rarest::counts(&lean[..1 << columns]);
    let free = ColumnSet::full(columns);
    let unmet = ((1u16 << needs) - 1) as u8;
    let task = Task {
        extracts: needs,
        free,
        unmet,
        cost: task::price(free),
    };
    let search = Search {
        lean: &lean,
        possible: &possible,
        counts: &counts,
        task,
    };
    let count = search.fewest(needs)?;
    let cost = search.cheapest(count);
    search.within(count, cost).take(extracts);
    Some(count)
}
