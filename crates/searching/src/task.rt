// What is still to be done, and what sets cost.
ghost use Rattle.std.specs.Prelude.{◌≡◌, ◌≤◌, ◌<◌};
ghost use Rattle.searching.specs.Prices.{price_of};
ghost use Rattle.searching.specs.Searching.{left_after};

use columns::ColumnSet;

// How many sets may be taken, from which columns, for which needs, and what they may cost.
#[derive(Clone, Copy)]
pub struct Task {
    pub extracts: u16,
    pub free: ColumnSet,
    pub unmet: u8,
    pub cost: u32,
}

// What a set costs. No other function knows what that is.
pub fn price(set: ColumnSet) -> u32
    ensures { result ≡ price_of set.bits }
{
    set.count()
}

impl Task {
    // What is left to be done when a set is taken that meets these needs.
    pub fn after(self, set: ColumnSet, gained: u8) -> Self
        requires { (0 < self.extracts) × (price_of set.bits ≤ self.cost) }
        ensures { result ≡ left_after price_of self set.bits gained }
    {
        Self {
            extracts: self.extracts - 1,
            free: self.free.without(set),
            unmet: self.unmet - (self.unmet & gained),
            cost: self.cost - price(set),
        }
    }
}
