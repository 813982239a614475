// Numbers written over the first places of a slice.
ghost use Rattle.std.specs.Prelude.{◌≡◌};
ghost use Rattle.rules.specs.Lists.{written};

// As many as there are places; the places after them stay.
pub fn write(to: &mut [u16], from: &[u16])
    ensures { to.new ≡ written from.now to.old }
{
    let count = to.len().min(from.len());
    to[..count].copy_from_slice(&from[..count]);
}
