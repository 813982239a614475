// Numbers that look random and are the same in every run.
ghost use Rattle.std.specs.Prelude.{◌≡◌};

// A fixed row of numbers that look random (an xorshift), and the place where it stands.
#[derive(Clone, Copy)]
pub struct Random {
    latest: u64,
}

impl Random {
    // The row that begins behind a number.
    pub fn new(seed: u64) -> Self
        ensures { result.latest ≡ seed }
    {
        Self { latest: seed }
    }

    // The number that came last, or the one that the row began behind.
    pub fn latest(&self) -> u64
        ensures { result ≡ self.now.latest }
    {
        self.latest
    }

    // The next number.
    pub fn next(&mut self) -> u64
        ensures { result ≡ self.new.latest }
    {
        let mut number = self.latest;
        number ^= number << 13;
        number ^= number >> 7;
        number ^= number << 17;
        *self = Self { latest: number };
        number
    }
}
