// The reader of a book's text: it keeps the lent text together with the offset it has reached.
// Each function is thin, and `number_from` does the work.
ghost use Rattle.std.specs.Prelude.{◌≡◌};
ghost use Rattle.numerals.specs.internal.Offsets.{number_at};

use crate::numbers::number_from;

// A lent text with the offset that was reached in it.
#[derive(Drop)]
pub struct Reader<'a> {
    text: &'a [u8],
    offset: usize,
}

impl<'a> Reader<'a> {
    // A reader at the start of a text.
    pub fn start(text: &'a [u8]) -> Reader<'a>
        ensures { result ≡ record { text = text.entry; offset = 0 } }
    {
        Reader { text, offset: 0 }
    }

    // The reader handed back at a new offset of its text.
    pub fn moved(self, offset: usize) -> Reader<'a>
        ensures { result ≡ record { text = self.entry.text; offset = offset } }
    {
        Reader {
            text: self.text,
            offset,
        }
    }

    // The number at the offset, with the offset after it.
    pub fn number(self) -> Option<(usize, usize)>
        ensures { result ≡ number_at self.entry.text.now self.entry.offset }
    {
        number_from(self.text, self.offset)
    }
}
