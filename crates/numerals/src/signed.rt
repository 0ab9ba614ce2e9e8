// Signed numbers in the text of a book: a minus stands only before a nonzero one.
ghost use Rattle.std.specs.Prelude.{◌≡◌};
ghost use Rattle.numerals.specs.internal.Offsets.{signed_at};

use crate::numbers::read_number;
use format::words::byte_at;

// The signed number at an offset, with the offset after it.
pub fn read_signed(text: &[u8], at: usize) -> Option<(i32, usize)>
    ensures { result ≡ signed_at text.now at }
{
    if byte_at(text, at, b'-') {
        let Some((value, next)) = read_number(text, at + 1) else {
            return None;
        };
        if value == 0 {
            return None;
        }
        return Some((-(value as i32), next));
    }
    let Some((value, next)) = read_number(text, at) else {
        return None;
    };
    Some((value as i32, next))
}
