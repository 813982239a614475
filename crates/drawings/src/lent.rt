// The slices that are lent to the calls of the diagram, and how a line shows what they hold after a call.
ghost use Rattle.std.specs.Prelude.{◌≤◌};

use diagram::Listed;
use std::fmt::{self, Display, Formatter, Write};
use worked::checksum::Checksum;
use worked::lent::Lent;

// What every place holds before a call. No node has this number, and a path only if it sets all 16 columns alike.
const BEFORE: u16 = 65535;

// How many nodes a diagram can have, and how many places a case lends for paths at most.
pub const NODES: usize = 8445;

pub const PATHS: usize = 16384;

// A line shows the first places of a slice, up to so many.
const MOST_SHOWN: usize = 16;

// What a case writes for a refusal, which lists nothing.
pub const NONE_LISTED: Listed = Listed {
    root: 0,
    count: 0,
    paths: 0,
};

// How many places of each slice a case lends.
#[derive(Clone, Copy)]
pub struct Rooms {
    pub column: usize,
    pub low: usize,
    pub high: usize,
    pub ones: usize,
    pub zeros: usize,
    ghost within: { (column ≤ 8445) × (low ≤ 8445) × (high ≤ 8445) × (ones ≤ 16384) × (zeros ≤ 16384) },
}

impl Rooms {
    // As many places as any diagram needs, and so many for each of the two numbers of a path.
    pub fn for_paths(ones: usize, zeros: usize) -> Self
        requires { (ones ≤ 16384) × (zeros ≤ 16384) }
    {
        Self {
            column: NODES,
            low: NODES,
            high: NODES,
            ones,
            zeros,
        }
    }

    // So many places for each of the three numbers of a node.
    pub fn for_nodes(column: usize, low: usize, high: usize) -> Self
        requires { (column ≤ 8445) × (low ≤ 8445) × (high ≤ 8445) }
    {
        Self {
            column,
            low,
            high,
            ones: 16,
            zeros: 16,
        }
    }
}

// The slices for the nodes, and those for the paths.
#[derive(Drop)]
pub struct Nodes {
    pub column: Lent<NODES, BEFORE>,
    pub low: Lent<NODES, BEFORE>,
    pub high: Lent<NODES, BEFORE>,
}

#[derive(Drop)]
pub struct Paths {
    pub ones: Lent<PATHS, BEFORE>,
    pub zeros: Lent<PATHS, BEFORE>,
}

impl Nodes {
    pub fn new(rooms: Rooms) -> Self {
        Self {
            column: Lent::new(rooms.column),
            low: Lent::new(rooms.low),
            high: Lent::new(rooms.high),
        }
    }

    pub fn renew(&mut self) {
        self.column.renew();
        self.low.renew();
        self.high.renew();
    }

    pub fn add_to(&self, checksum: &mut Checksum) {
        checksum.add_all(self.column.as_slice());
        checksum.add_all(self.low.as_slice());
        checksum.add_all(self.high.as_slice());
    }
}

impl Paths {
    pub fn new(rooms: Rooms) -> Self {
        Self {
            ones: Lent::new(rooms.ones),
            zeros: Lent::new(rooms.zeros),
        }
    }

    pub fn renew(&mut self) {
        self.ones.renew();
        self.zeros.renew();
    }

    pub fn add_to(&self, checksum: &mut Checksum) {
        checksum.add_all(self.ones.as_slice());
        checksum.add_all(self.zeros.as_slice());
    }
}

// The first nodes, each as column, low, high, and how many places of each slice are untouched.
impl Display for Nodes {
    fn fmt<W: Write>(&self, f: &mut Formatter<W>) -> fmt::Result {
        let columns = self.column.as_slice().iter();
        let children = self.low.as_slice().iter().zip(self.high.as_slice());
        let shown = self.column.written().min(MOST_SHOWN);
        for (column, (low, high)) in columns.zip(children).take(shown) {
            write!(f, ", node {column} {low} {high}")?;
        }
        write!(f, ", untouched {} ", self.column.untouched())?;
        write!(f, "{} {}", self.low.untouched(), self.high.untouched())
    }
}

// The first paths, each as ones, zeros, and how many places of each slice are untouched.
impl Display for Paths {
    fn fmt<W: Write>(&self, f: &mut Formatter<W>) -> fmt::Result {
        let paths = self.ones.as_slice().iter().zip(self.zeros.as_slice());
        let shown = self.ones.written().min(MOST_SHOWN);
        for (ones, zeros) in paths.take(shown) {
            write!(f, ", path {ones} {zeros}")?;
        }
        write!(f, ", untouched {} ", self.ones.untouched())?;
        write!(f, "{}", self.zeros.untouched())
    }
}
