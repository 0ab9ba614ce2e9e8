// A search for the lowest place that fails.
ghost use Rattle.std.specs.Prelude.{◌≡◌, ℕ, Bool, ◌<◌};
ghost use Rattle.tables.specs.Faults.{lowest};

// The lowest of the first places that a test tells to fail.
pub fn lowest<F: Fn(usize) -> bool>(places: usize, fails: F) -> Option<usize>
    requires { (place : ℕ) → place < places → F.pre fails place }
    ensures { (bad : ℕ → Bool) → ((place : ℕ) (told : Bool) → place < places → F.post fails place told → told ≡ bad place) →
        result ≡ lowest places bad }
{
    for place in 0..places {
        if fails(place) {
            return Some(place);
        }
    }
    None
}
