// A line of a text: the word at its start tells how its form is read, a byte ends it, and it is judged.
ghost use Rattle.std.specs.Prelude.{◌≡◌, drop};
ghost use Rattle.format.specs.Parse.{read_form};
ghost use Rattle.judging.specs.Judging.{if_levelled};
ghost use Rattle.forms.specs.Contents.{lent_tables};
ghost use Rattle.forms.specs.Entries.{entries_of};
ghost use Rattle.forms.specs.internal.Stores.{store};
ghost use Rattle.forms.specs.internal.Readers.{Forms};
ghost use Rattle.lines.specs.internal.Walks.{Ready, Judgeable, line_move};

use format::kinds::{Kind, kind_at};
use format::words::byte_at;
use forms::{
    read_atoms_form, read_claim_form, read_clause_form, read_defined_form, read_load_form,
    read_open_form, read_rule_form,
};
use judging::reached::{Reached, Shape, Space, judge_shape};
use tables::Fault;

// The form at an offset: its word tells the kind.
pub fn read_form(
    text: &[u8],
    at: usize,
    reached: Reached,
    rules: &mut [u16],
    literals: &mut [u16],
    clauses: &mut [u16],
    loads: &mut [i32],
    load_literals: &mut [u16],
    minutes: &mut [i16],
    marks: &mut [u8],
    values: &mut [u8],
    levels: &mut [u16],
) -> Option<(Shape, usize)>
    requires { Ready text.now at reached }
    ensures { Forms reached text.now (if_levelled reached (read_form (drop at text.now))) result
        (λ f. lent_tables rules.new literals.new clauses.new loads.new load_literals.new
        minutes.new marks.new values.new levels.new
        ≡ store reached (entries_of reached f)
        (lent_tables rules.old literals.old clauses.old loads.old load_literals.old
        minutes.old marks.old values.old levels.old)) }
{
    let kind = kind_at(text, at)?;
    match kind {
        Kind::Atoms => read_atoms_form(text, at + 6, reached, marks),
        Kind::Rule => read_rule_form(text, at + 5, reached, rules, literals),
        Kind::Clause => read_clause_form(text, at + 7, reached, clauses, literals),
        Kind::Load => read_load_form(text, at + 5, reached, loads, load_literals, minutes),
        Kind::Open => read_open_form(text, at + 5, reached, values),
        Kind::Claim => read_claim_form(text, at + 6, reached, values, levels),
        Kind::Defined => read_defined_form(text, at + 8, reached, marks),
    }
}

// What a line comes to in the state reached so far: its form with the byte that ends it, judged.
pub fn judge_line(
    text: &[u8],
    line: Option<(Shape, usize)>,
    space: Space,
    reached: Reached,
) -> Result<(Reached, usize), Fault>
    requires { Judgeable space reached line }
    ensures { result ≡ line_move space reached text.now line }
{
    let (shape, next) = line.ok_or(Fault::Malformed)?;
    if !byte_at(text, next, b'\n') {
        return Err(Fault::Malformed);
    }
    judge_shape(space, reached, shape, next + 1)
}
