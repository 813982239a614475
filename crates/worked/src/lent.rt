// Slices that are lent to a call: what they hold before it, and what of that is left after it.
ghost use Rattle.std.specs.Prelude.{◌≡◌, ◌≤◌, ◌-◌, ◌==◌, length, take, replicate, count_by};

// As many places of an array as a case lends to a call. Before the call every place holds the same number.
#[derive(Clone, Copy)]
pub struct Lent<const MOST: usize, const BEFORE: u16> {
    places: [u16; MOST],
    room: usize,
    ghost within: { room ≤ MOST },
}

impl<const MOST: usize, const BEFORE: u16> Lent<MOST, BEFORE> {
    pub fn new(room: usize) -> Self
        requires { room ≤ MOST }
        ensures { result.room ≡ room }
    {
        Self {
            places: [BEFORE; MOST],
            room,
        }
    }

    pub fn as_slice(&self) -> &[u16]
        ensures { result.now ≡ take self.now.room self.now.places }
    {
        &self.places[..self.room]
    }

    pub fn as_mut_slice(&mut self) -> &mut [u16]
        ensures { length result.now ≡ self.old.room }
    {
        let room = self.room;
        let places = &mut self.places;
        &mut places[..room]
    }

    // Every place that is lent holds once more what it held before the first call, so that one array serves call after call and is not copied for each.
    pub fn renew(&mut self)
        ensures room { self.new.room ≡ self.old.room }
        ensures before { take self.new.room self.new.places ≡ replicate self.old.room BEFORE }
    {
        self.places[..self.room].fill(BEFORE);
    }

    // How many places hold what they held before, and how many another number.
    pub fn untouched(&self) -> usize
        ensures { result ≡ count_by (λ x. x == BEFORE) (take self.now.room self.now.places) }
    {
        count(self.as_slice(), BEFORE)
    }

    pub fn written(&self) -> usize
        ensures { result ≡ self.now.room - count_by (λ x. x == BEFORE) (take self.now.room self.now.places) }
    {
        self.room - self.untouched()
    }
}

// How many numbers are this one.
fn count(numbers: &[u16], one: u16) -> usize
    ensures told { result ≡ count_by (λ x. x == one) numbers.now }
    ensures few { result ≤ length numbers.now }
{
    numbers.iter().filter(|number| **number == one).count()
}
