// A text that is put together byte for byte.
ghost use Rattle.std.specs.Prelude.{◌≡◌, ◌+◌, ◌-◌, ◌*◌, ◌≤◌, length, min, take};

// More bytes than a text may have.
pub const ROOM: usize = 8200;

// The bytes that have been put so far. Where there is no room, nothing more is put. `writing::Page` puts bytes in the same way on a page that is lent to
// it; a draft owns its bytes, so that `spell` can give it away.
#[derive(Clone, Copy)]
pub struct Draft {
    bytes: [u8; ROOM],
    filled: usize,
    ghost within: { filled ≤ 8200 },
}

impl Draft {
    pub fn new() -> Self
        ensures { result.filled ≡ 0 }
    {
        Self {
            bytes: [0; ROOM],
            filled: 0,
        }
    }

    pub fn as_bytes(&self) -> &[u8]
        ensures { result.now ≡ take self.now.filled self.now.bytes }
    {
        &self.bytes[..self.filled]
    }

    pub fn put(&mut self, byte: u8)
        ensures { self.new.filled ≡ min (self.old.filled + 1) 8200 }
    {
        if let Some(place) = self.bytes.get_mut(self.filled) {
            *place = byte;
            self.filled += 1;
        }
    }

    // In one piece: byte by byte, with how many there are counted in memory, the program `texts` takes nine times as long on long texts.
    pub fn put_all(&mut self, bytes: &[u8])
        ensures { self.new.filled ≡ min (self.old.filled + length bytes.now) 8200 }
    {
        let room = &mut self.bytes[self.filled..];
        let count = bytes.len().min(room.len());
        room[..count].copy_from_slice(&bytes[..count]);
        self.filled += count;
    }

    // The bytes from a place on, put behind the text until they stand so many times: each byte is the one that stands a unit before it. A unit may be a
    // single byte, so they are not copied unit by unit.
    pub fn repeat(&mut self, from: usize, times: usize)
        ensures { self.new.filled ≡ min (self.old.filled + (times - 1) * (self.old.filled - from)) 8200 }
    {
        let unit = self.filled.saturating_sub(from);
        let more = times.saturating_sub(1).saturating_mul(unit);
        let end = self.filled.saturating_add(more).min(ROOM);
        for place in self.filled..end {
            self.bytes[place] = self.bytes[place - unit];
        }
        self.filled = end;
    }
}
