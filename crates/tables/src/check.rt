// The check of all eight tables: sizes, then records; the first bad record of the first bad table.
ghost use Rattle.std.specs.Prelude.{◌≡◌, ◌<◌};
ghost use Rattle.layout.specs.Lent.{tables_of};
ghost use Rattle.records.specs.Records.{counts_in};
ghost use Rattle.tables.specs.Check.{
  whole_size,
  used_size,
  size_or,
  texts_size,
  sizes_fault,
  records_fault,
  tables_fault,
};
ghost use Rattle.tables.specs.Facts.{Sized};
ghost use Rattle.tables.specs.Found.{Sound};

use crate::walk;
use error::Failure;
use layout::words::NONE;
use layout::{Tables, words};
use records::Counts;
use text::Texts;

// Whether a table of that many words is neither ragged nor too long.
#[tactic(auto, unfolding(crate::specs::Check::whole_size))]
fn whole_size(words: usize, width: usize, most: usize) -> bool
    requires { 0 < width }
    ensures { result ≡ whole_size words width most }
{
    words % width == 0 && words / width <= most
}

// Whether a used count is at most the limit and the whole records lent.
#[tactic(auto, unfolding(crate::specs::Check::used_size))]
pub fn used_size(records: usize, most: usize, used: usize) -> bool
    ensures { result ≡ used_size records most used }
{
    used <= most && used <= records
}

// A size that is bad names its table alone.
#[tactic(auto, unfolding(crate::specs::Check::size_or))]
fn size_is(good: bool, table: u32) -> Result<(), Failure>
    ensures { result ≡ size_or good table Sound }
{
    if good {
        Ok(())
    } else {
        Err(Failure::BadTable {
            table,
            record: NONE,
        })
    }
}

#[tactic(auto, unfolding(crate::specs::Check::texts_size))]
fn texts_size(texts: &Texts) -> bool
    ensures { result ≡ texts_size texts.now.pool.now texts.now.records.now }
{
    whole_size(texts.records.len(), text::TEXT_WORDS, words::MOST_TEXTS)
        && texts.pool.len() <= words::MOST_BYTES
}

// The sizes of tables 1 to 8 in order; those of 3, 4 and 7 are judged by the caller, whole or by used counts.
pub fn check_sizes(
    t: &Tables,
    notes_fit: bool,
    schemas_fit: bool,
    links_fit: bool,
) -> Result<(), Failure>
    ensures { let T = tables_of t.now in
        result ≡ sizes_fault T.pool T.texts T.nodes T.registry T.patterns T.numbers notes_fit
        schemas_fit links_fit }
{
    let nodes_fit = whole_size(t.nodes.len(), words::NODE_WORDS, words::MOST_NODES);
    let registry_fit = whole_size(t.registry.len(), words::REGISTRY_WORDS, words::MOST_ENTRIES);
    let patterns_fit = whole_size(t.patterns.len(), words::PATTERN_WORDS, words::MOST_PATTERNS);
    size_is(texts_size(&t.texts), 1)?;
    size_is(nodes_fit, 2)?;
    size_is(notes_fit, 3)?;
    size_is(schemas_fit, 4)?;
    size_is(registry_fit, 5)?;
    size_is(patterns_fit, 6)?;
    size_is(links_fit, 7)?;
    size_is(t.numbers.len() <= words::MOST_NUMBERS, 8)
}

fn counts(t: &Tables) -> Counts
    ensures { let T = tables_of t.now in
        result ≡ counts_in T.texts T.nodes T.notes T.schemas T.numbers }
{
    Counts {
        texts: t.texts.count(),
        nodes: t.node_count(),
        notes: t.note_count(),
        schemas: t.schema_count(),
        numbers: t.numbers.len(),
    }
}

// The records of tables 1 to 6, once the sizes are good.
fn check_records(t: &Tables) -> Result<(), Failure>
    requires { Sized (tables_of t.now) }
    ensures { result ≡ records_fault (tables_of t.now) }
{
    let z = counts(t);
    walk::texts_fault(&t.texts)?;
    walk::nodes_fault(z, t)?;
    walk::notes_fault(t)?;
    walk::schemas_fault(z, t)?;
    walk::registry_fault(z, t)?;
    walk::patterns_fault(z, t)
}

// The whole check: answer 20's table and record, or nothing.
pub fn check_tables(t: &Tables) -> Result<(), Failure>
    ensures { result ≡ tables_fault (tables_of t.now) }
{
    let notes_fit = whole_size(t.notes.len(), words::NOTE_WORDS, words::MOST_NOTES);
    let schemas_fit = whole_size(t.schemas.len(), words::SCHEMA_WORDS, words::MOST_SCHEMAS);
    let links_fit = t.links.len() <= words::MOST_LINKS;
    check_sizes(t, notes_fit, schemas_fit, links_fit)?;
    check_records(t)
}
