// A key while it is read. Some keys begin alike: each of them may be the one that stands.
ghost use Rattle.std.specs.Prelude.{◌≡◌, find};
ghost use Rattle.naming.specs.Sections.{alike as begin_alike, sections};
ghost use Rattle.form.specs.Keys.{goes_on};

use crate::order::follows;
use naming::sections::{Section, key_byte};

// So many bytes of a key stand: of this section's, and of every other that begins alike and may stand here.
#[derive(Clone, Copy)]
pub struct BegunKey {
    pub section: Section,
    pub behind: Option<Section>, // the section of the line before, if there is one
    pub count: usize,
}

impl BegunKey {
    // The first section whose key goes on with the byte.
    pub fn first_that_goes_on(self, byte: u8) -> Option<Section>
        ensures { result ≡ find (goes_on self.behind self.section self.count byte) sections }
    {
        Section::ALL
            .iter()
            .copied()
            .find(|other| self.goes_on(byte, *other))
    }

    // Whether the key of the other section may stand here, goes on with the byte, and begins with the bytes of the section's key that stand.
    fn goes_on(self, byte: u8, other: Section) -> bool
        ensures { result ≡ goes_on self.behind self.section self.count byte other }
    {
        follows(self.behind, other)
            && byte == key_byte(other, self.count)
            && alike(self.section, other, self.count)
    }
}

// Whether the first k bytes of two keys are the same.
fn alike(one: Section, other: Section, k: usize) -> bool
    ensures { result ≡ begin_alike one other k }
{
    (0..k).all(|i| key_byte(one, i) == key_byte(other, i))
}
