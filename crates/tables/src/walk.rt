// The records of one table each: its first bad one.
ghost use Rattle.std.specs.Prelude.{◌≡◌, ℕ, ◌<◌, ◌≤◌, ◌^◌, Bool};
ghost use Rattle.layout.specs.Lent.{tables_of};
ghost use Rattle.text.specs.Text.{text_count};
ghost use Rattle.layout.specs.Layout.{
  most_texts,
  most_nodes,
  most_notes,
  most_schemas,
  most_entries,
  most_patterns,
  node_count,
  note_count,
  schema_count,
  entry_count,
  pattern_count,
};
ghost use Rattle.records.specs.Records.{text_ok, node_ok, note_ok, entry_ok, pattern_ok};
ghost use Rattle.rules.specs.Schemas.{schema_ok};
ghost use Rattle.tables.specs.Found.{Sound, bad_or};

use error::Failure;
use layout::Tables;
use layout::words::{NODE_WORDS, SCHEMA_WORDS};
use records::Counts;
use rules::schemas;
use text::Texts;

// The first of so many records that is not good.
fn first_bad<F: Fn(u32) -> bool>(table: u32, count: usize, good: F) -> Result<(), Failure>
    requires callable { F.IsAlwaysCallable good }
    requires few { count < 2 ^ 32 }
    ensures { (f : ℕ → Bool) → ((i : ℕ) (b : Bool) → F.post good i b → b ≡ f i) →
        result ≡ bad_or table f count Sound }
{
    for record in 0..count as u32 {
        if !good(record) {
            return Err(Failure::BadTable { table, record });
        }
    }
    Ok(())
}

// In a pool of ASCII alone every text is UTF-8, so that is asked once.
pub fn texts_fault(texts: &Texts) -> Result<(), Failure>
    requires { text_count texts.now.records.now ≤ most_texts }
    ensures { result ≡ bad_or 1 (text_ok texts.now.pool.now texts.now.records.now)
        (text_count texts.now.records.now) Sound }
{
    let plain = ascii::is_ascii(texts.pool);
    first_bad(1, texts.count(), |text| {
        records::text_ok(texts, plain, text)
    })
}

// The test asks for a whole node and not for a count, so that the compiler knows each of its words to be there:
// a count, or `first_bad`, misses the speed of the check (docs/DECISIONS.md).
pub fn nodes_fault(z: Counts, t: &Tables) -> Result<(), Failure>
    requires { let T = tables_of t.now in node_count T.nodes ≤ most_nodes }
    ensures { let T = tables_of t.now in
        result ≡ bad_or 2 (node_ok z T.links T.nodes) (node_count T.nodes) Sound }
{
    let mut node = 0;
    while (node as usize) * NODE_WORDS + NODE_WORDS <= t.nodes.len() {
        if !records::node_ok(z, t, node) {
            return Err(Failure::BadTable {
                table: 2,
                record: node,
            });
        }
        node += 1;
    }
    Ok(())
}

pub fn notes_fault(t: &Tables) -> Result<(), Failure>
    requires { let T = tables_of t.now in note_count T.notes ≤ most_notes }
    ensures { let T = tables_of t.now in
        result ≡ bad_or 3 (note_ok T.notes) (note_count T.notes) Sound }
{
    first_bad(3, t.note_count(), |note| { records::note_ok(t, note) })
}

// The test asks for a whole schema, as for a node.
pub fn schemas_fault(z: Counts, t: &Tables) -> Result<(), Failure>
    requires { let T = tables_of t.now in schema_count T.schemas ≤ most_schemas }
    ensures { let T = tables_of t.now in result ≡
        bad_or 4 (schema_ok z T.pool T.texts T.links T.schemas) (schema_count T.schemas) Sound }
{
    let mut schema = 0;
    while (schema as usize) * SCHEMA_WORDS + SCHEMA_WORDS <= t.schemas.len() {
        if !schemas::schema_ok(z, t, schema) {
            return Err(Failure::BadTable {
                table: 4,
                record: schema,
            });
        }
        schema += 1;
    }
    Ok(())
}

pub fn registry_fault(z: Counts, t: &Tables) -> Result<(), Failure>
    requires { let T = tables_of t.now in entry_count T.registry ≤ most_entries }
    ensures { let T = tables_of t.now in
        result ≡ bad_or 5 (entry_ok z T.registry) (entry_count T.registry) Sound }
{
    first_bad(5, t.entry_count(), |entry| {
        records::entry_ok(z, t, entry)
    })
}

pub fn patterns_fault(z: Counts, t: &Tables) -> Result<(), Failure>
    requires { let T = tables_of t.now in pattern_count T.patterns ≤ most_patterns }
    ensures { let T = tables_of t.now in
        result ≡ bad_or 6 (pattern_ok z T.patterns) (pattern_count T.patterns) Sound }
{
    first_bad(6, t.pattern_count(), |pattern| {
        records::pattern_ok(z, t, pattern)
    })
}
