// The bytes of a job text.
ghost use Rattle.std.specs.Prelude.{◌≡◌, true, false, drop};
ghost use Rattle.rules.specs.Signs.{byte_at, Says, letter as letter_byte, digit as digit_byte, in_name};
ghost use Rattle.naming.specs.Words.{is_sign};

pub const LINE_END: u8 = b'\n';

// "Brackets nested at most 8."
pub const MOST_BRACKETS: usize = 8;

// The byte at a place; 0 past the end, which is no byte of a job text. So no caller has to ask for the length.
pub fn byte(text: &[u8], at: usize) -> u8
    ensures { result ≡ byte_at text.now at }
{
    text.get(at).copied().unwrap_or(0)
}

// The bytes from a place on; none past the end.
pub(crate) fn bytes_from(text: &[u8], at: usize) -> &[u8]
    ensures { result.now ≡ drop at text.now }
{
    text.get(at..).unwrap_or_default()
}

// Whether these bytes, of which the first is not 0, stand from a place on.
pub fn stands(text: &[u8], at: usize, bytes: &[u8]) -> bool
    ensures there { result ≡ true → Says text.now at bytes.now }
    ensures missing { result ≡ false → (byte_at bytes.now 0 ≡ 0 → ⊥) → Says text.now at bytes.now → ⊥ }
{
    // asked first, so that the sum can't overflow; past the end no such bytes stand
    at < text.len()
        && bytes
            .iter()
            .enumerate()
            .all(|(i, expected)| byte(text, at + i) == *expected)
}

pub fn letter(sign: u8) -> bool
    ensures { result ≡ letter_byte sign }
{
    sign.is_ascii_lowercase()
}

pub fn digit(sign: u8) -> bool
    ensures { result ≡ digit_byte sign }
{
    sign.is_ascii_digit()
}

// Whether a byte can stand in a name.
pub fn in_name(sign: u8) -> bool
    ensures { result ≡ in_name sign }
{
    letter(sign) || digit(sign)
}

// Whether a byte stands between the names of a line.
pub fn is_sign(sign: u8) -> bool
    ensures { result ≡ is_sign sign }
{
    !in_name(sign) && sign != LINE_END
}
