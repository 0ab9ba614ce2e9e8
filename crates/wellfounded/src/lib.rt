// Literals and bodies in lent values: the leaf functions that checking and evaluating share.
#![tactic(auto)]

ghost use Rattle.std.specs.Prelude.{◌≡◌, ◌<◌, length};
ghost use Rattle.wellfounded.specs.Literals.{atom_of, is_negated, literal_true, literal_false, body_true, body_at};
ghost use Rattle.wellfounded.specs.internal.Scans.{Scannable};

// The atom of a literal.
pub fn atom_of(literal: u16) -> usize
    ensures { result ≡ atom_of literal }
{
    (literal / 2) as usize
}

pub fn is_negated(literal: u16) -> bool
    ensures { result ≡ is_negated literal }
{
    literal % 2 == 1
}

// Whether the literal is true in the values.
pub fn literal_true(literal: u16, values: &[u8]) -> bool
    requires { atom_of literal < length values.now }
    ensures { result ≡ literal_true values.now literal }
{
    let value = values[atom_of(literal)];
    if is_negated(literal) {
        value == 0
    } else {
        value == 1
    }
}

// Whether the literal is false in the values: not the same as "not true" where its atom is undecided.
pub fn literal_false(literal: u16, values: &[u8]) -> bool
    requires { atom_of literal < length values.now }
    ensures { result ≡ literal_false values.now literal }
{
    let value = values[atom_of(literal)];
    if is_negated(literal) {
        value == 1
    } else {
        value == 0
    }
}

// Whether the first `size` literals are all true in the values.
pub fn literals_true(literals: &[u16], size: usize, values: &[u8]) -> bool
    requires { Scannable literals.now 0 size (length values.now) }
    ensures { result ≡ body_true values.now (body_at literals.now 0 size) }
{
    // The library's `all` is slower here: the machine's code for it has one more branch for each literal.
    for literal in &literals[..size] {
        if !literal_true(*literal, values) {
            return false;
        }
    }
    true
}

// Whether the body that begins at `start` is all true in the values. The part from start on is the form that docs/DECISIONS.md names for it.
pub fn body_true(literals: &[u16], start: usize, size: usize, values: &[u8]) -> bool
    requires { Scannable literals.now start size (length values.now) }
    ensures { result ≡ body_true values.now (body_at literals.now start size) }
{
    literals_true(&literals[start..], size, values)
}
