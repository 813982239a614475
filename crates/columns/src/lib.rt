// Sets of columns, held as a number of 16 bits: column i is bit i.
#![tactic(auto)]

ghost use Rattle.std.specs.Prelude.{◌≡◌, min, eqb};
ghost use Rattle.rules.specs.Sets.{most_columns, has, contains, apart, size, empty, full, union, without, within};

// How many sets of 16 columns there are: a table with a place for each set has so many.
pub const ALL_SETS: usize = 65536;

#[derive(Clone, Copy, Debug, PartialEq, Eq)]
pub struct ColumnSet {
    pub bits: u16,
}

impl ColumnSet {
    // "Columns 1 to 16."
    pub const MOST_COLUMNS: u16 = 16;

    // The set with no column.
    pub const EMPTY: Self = Self { bits: 0 };

    // The set of columns 0 to n-1. A set has no room past column 15, so it is all 16 for any greater n.
    pub fn full(n: u16) -> Self
        ensures { result.bits ≡ full (min n most_columns) }
    {
        let count = n.min(Self::MOST_COLUMNS);
        Self {
            bits: ((1u32 << count) - 1) as u16,
        }
    }

    // Whether column i is in the set. No set has a column past 15.
    pub fn has(self, i: u16) -> bool
        ensures { result ≡ has i self.bits }
    {
        i < Self::MOST_COLUMNS && (self.bits >> i) % 2 == 1
    }

    // Whether every column of the other set is in this one.
    pub fn contains(self, other: Self) -> bool
        ensures { result ≡ contains self.bits other.bits }
    {
        self.bits & other.bits == other.bits
    }

    // Whether the two sets have no column in common.
    pub fn apart(self, other: Self) -> bool
        ensures { result ≡ apart self.bits other.bits }
    {
        self.bits & other.bits == 0
    }

    // The columns that are in either set.
    pub fn union(self, other: Self) -> Self
        ensures { result.bits ≡ union self.bits other.bits }
    {
        Self {
            bits: self.bits | other.bits,
        }
    }

    // The columns of this set that are not in the other.
    pub fn without(self, other: Self) -> Self
        ensures { result.bits ≡ without self.bits other.bits }
    {
        Self {
            bits: self.bits - (self.bits & other.bits),
        }
    }

    // How many columns the set has: the length of the list of its members, which is what `size` says.
    pub fn count(self) -> u32
        ensures { result ≡ size self.bits }
    {
        self.bits.count_ones()
    }

    // Whether the set has no column at all.
    pub fn is_empty(self) -> bool
        ensures { result ≡ eqb self.bits empty }
    {
        self.bits == 0
    }

    // Whether the set names no column but 0 to n-1.
    pub fn within(self, n: u16) -> bool
        ensures { result ≡ within n self.bits }
    {
        self.bits <= Self::full(n).bits
    }
}
