// Bytes and numbers put behind one another on a lent page. Where the page is full, nothing more is put: so no call asks for room, and who needs a whole
// page lends one that is long enough.
#![tactic(auto)]

ghost use Rattle.std.specs.Prelude.{[], ◌∷◌};
ghost use Rattle.rules.specs.Words.{decimal};
ghost use Rattle.writing.specs.Added.{Adds};
ghost use Rattle.writing.specs.Puts.{Puts};

// A lent page, and the place of it that comes next.
#[derive(Drop)]
pub struct Page<'a> {
    pub places: &'a mut [u8],
    pub end: usize,
}

impl Page<'_> {
    // Puts one byte.
    pub fn put_byte(&mut self, sign: u8)
        ensures { Puts (sign ∷ []) self.old self.new }
    {
        if self.end < self.places.len() {
            self.places[self.end] = sign;
            self.end += 1;
        }
    }

    // Puts bytes one after the other.
    pub fn put(&mut self, words: &[u8])
        ensures { Puts words.now self.old self.new }
    {
        for sign in words {
            self.put_byte(*sign);
        }
    }

    // Puts a number in decimal digits, the higher ones first. The library's `write!` says what it wrote only where the writer answered Ok, and here the
    // digits stand whatever the page.
    pub fn put_number(&mut self, number: usize)
        ensures { Puts (decimal number) self.old self.new }
    {
        if 10 <= number {
            self.put_number(number / 10);
        }
        self.put_byte(b'0' + (number % 10) as u8);
    }
}

// The same for one call, on a slice with the place that comes next beside it: these are public functions that the papers name.

// Puts one byte at a place of the page, and says which place comes next.
pub fn put_byte(page: &mut [u8], at: usize, sign: u8) -> usize
    ensures { Adds (sign ∷ []) at page.old result page.new }
{
    let mut page = Page {
        places: page,
        end: at,
    };
    page.put_byte(sign);
    page.end
}

// Puts bytes from a place of the page on.
pub fn put(page: &mut [u8], at: usize, words: &[u8]) -> usize
    ensures { Adds words.now at page.old result page.new }
{
    let mut page = Page {
        places: page,
        end: at,
    };
    page.put(words);
    page.end
}

// Puts a number in decimal digits, the higher ones first.
pub fn put_number(page: &mut [u8], at: usize, number: usize) -> usize
    ensures { Adds (decimal number) at page.old result page.new }
{
    let mut page = Page {
        places: page,
        end: at,
    };
    page.put_number(number);
    page.end
}
