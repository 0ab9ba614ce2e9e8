// Entries of a lent slice of numbers.
ghost use Rattle.std.specs.Prelude.{◌≡◌, length, replicate};

// Puts 0 at every entry.
pub fn clear(entries: &mut [u16])
    ensures { entries.new ≡ replicate (length entries.old) 0 }
{
    entries.fill(0);
}
