// The fixed words of the format, found at an offset of the text.
ghost use Rattle.std.specs.Prelude.{◌≡◌, [], ◌∷◌};
ghost use Rattle.format.specs.Words.{word_at};

// Whether a word stands at an offset.
#[tactic(auto, using(crate::proofs::WordLaws::word_told))]
pub fn word_at(text: &[u8], at: usize, word: &[u8]) -> bool
    ensures { result ≡ word_at text.now at word.now }
{
    text[at.min(text.len())..].starts_with(word)
}

// Whether a byte stands at an offset.
pub fn byte_at(text: &[u8], at: usize, byte: u8) -> bool
    ensures { result ≡ word_at text.now at (byte ∷ []) }
{
    text.get(at) == Some(&byte)
}
