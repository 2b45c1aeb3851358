ghost use Rattle.std.specs.Prelude.{◌≡◌};
ghost use Rattle.text.specs.Names.{name_byte, all_name_bytes, is_name};

/// The most bytes that a name has.
pub const MAX_NAME: usize = 16;

/// A lowercase letter, a digit or a hyphen.
fn is_name_byte(b: u8) -> bool
    ensures { result ≡ name_byte b }
{
    matches!(b, b'a'..=b'z' | b'0'..=b'9' | b'-')
}

/// A name has 1 to 16 bytes, each a lowercase letter, a digit or a hyphen.
pub fn is_name(s: &[u8]) -> bool
    ensures { result ≡ is_name s.now }
{
    !s.is_empty() && s.len() <= MAX_NAME && all_name_bytes(s)
}

fn all_name_bytes(s: &[u8]) -> bool
    ensures { result ≡ all_name_bytes s.now }
{
    s.iter().all(|b| is_name_byte(*b))
}
