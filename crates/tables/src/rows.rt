// Rows of the rule and clause tables, entry by entry. No other code knows how they are laid out. Each entry has a function of its own name, so that
// what is read of a row is told where it is read.
ghost use Rattle.std.specs.Prelude.{◌≡◌, ◌<◌, length, get_or};
ghost use Rattle.tables.specs.Rows.{rule_count, rule_head, rule_start, rule_size, rule_group, clause_count, clause_start, clause_size};
ghost use Rattle.tables.specs.internal.Fields.{Field};

// Entries in a row.
pub const RULE_WIDTH: usize = 3;

pub const CLAUSE_WIDTH: usize = 2;

// An entry of a table of 16-bit numbers, as an index.
fn entry(table: &[u16], place: usize) -> usize
    requires { place < length table.now }
    ensures { Field 65536 (get_or table.now place 0) result }
{
    table[place] as usize
}

// How many rules a table has.
pub fn rule_count(rules: &[u16]) -> usize
    ensures { result ≡ rule_count rules.now }
{
    rules.len() / RULE_WIDTH
}

// The head of a rule.
pub fn rule_head(rules: &[u16], row: usize) -> usize
    requires { row < rule_count rules.now }
    ensures { Field 65536 (rule_head rules.now row) result }
{
    entry(rules, row * RULE_WIDTH)
}

// Where a rule's body starts in the literal table.
pub fn rule_start(rules: &[u16], row: usize) -> usize
    requires { row < rule_count rules.now }
    ensures { Field 65536 (rule_start rules.now row) result }
{
    entry(rules, row * RULE_WIDTH + 1)
}

// How many literals a rule's body has.
pub fn rule_size(rules: &[u16], row: usize) -> usize
    requires { row < rule_count rules.now }
    ensures { Field 65536 (rule_size rules.now row) result }
{
    entry(rules, row * RULE_WIDTH + 2)
}

// The group of a rule: 0, as rows have no number for it yet.
pub fn rule_group(rules: &[u16], row: usize) -> usize
    requires { row < rule_count rules.now }
    ensures { Field 65536 (rule_group rules.now row) result }
{
    0
}

// How many clauses a table has.
pub fn clause_count(clauses: &[u16]) -> usize
    ensures { result ≡ clause_count clauses.now }
{
    clauses.len() / CLAUSE_WIDTH
}

// Where a clause starts in the literal table.
pub fn clause_start(clauses: &[u16], row: usize) -> usize
    requires { row < clause_count clauses.now }
    ensures { Field 65536 (clause_start clauses.now row) result }
{
    entry(clauses, row * CLAUSE_WIDTH)
}

// How many literals a clause has.
pub fn clause_size(clauses: &[u16], row: usize) -> usize
    requires { row < clause_count clauses.now }
    ensures { Field 65536 (clause_size clauses.now row) result }
{
    entry(clauses, row * CLAUSE_WIDTH + 1)
}
