ghost use Rattle.text.specs.Numbers.{Number};

// Not by `parse`, which takes a sign and leading zeros too.
/// The number up to 255 whose decimal text the field is.
pub fn read_number(field: &[u8]) -> Option<u8>
    ensures { Number field.now result }
{
    if field.is_empty() || field.len() > 3 {
        return None;
    }
    if field[0] == b'0' && field.len() > 1 {
        return None;
    }
    let mut n: u16 = 0;
    for b in field {
        if !b.is_ascii_digit() {
            return None;
        }
        n = n * 10 + (*b - b'0') as u16;
    }
    u8::try_from(n).ok()
}
