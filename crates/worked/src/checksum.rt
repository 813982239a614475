// A checksum of numbers, so that none can differ unseen.
ghost use Rattle.std.specs.Prelude.{◌≡◌, ◌+◌, ◌*◌, ◌%◌, ◌^◌};
ghost use Rattle.std.specs.List.{fold};

use std::fmt::{self, Display, Formatter, Write};

#[derive(Clone, Copy, Default)]
pub struct Checksum {
    value: u64,
}

impl Checksum {
    // One number more: the checksum is 31 times as much, and the number, within 64 bits.
    pub fn add(&mut self, number: u64)
        ensures { self.new.value ≡ (31 * self.old.value % 2 ^ 64 + number) % 2 ^ 64 }
    {
        self.value = self.value.wrapping_mul(31).wrapping_add(number);
    }

    // Every number of a slice, one after the other.
    pub fn add_all(&mut self, numbers: &[u16])
        ensures { self.new.value ≡ fold (λ value number. (31 * value % 2 ^ 64 + number) % 2 ^ 64) self.old.value numbers.now }
    {
        for number in numbers {
            self.add((*number).into());
        }
    }
}

impl Display for Checksum {
    fn fmt<W: Write>(&self, f: &mut Formatter<W>) -> fmt::Result {
        self.value.fmt(f)
    }
}
