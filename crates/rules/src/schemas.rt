// When a record of table 4 is good, kind by kind.
ghost use Rattle.std.specs.Prelude.{◌≡◌};
ghost use Rattle.layout.specs.Lent.{tables_of};
ghost use Rattle.rules.specs.Parts.{is_list, list_limit, plain_rule};
ghost use Rattle.rules.specs.Schemas.{
  unused_from,
  schema_note_ok,
  true_ok,
  number_ok,
  string_ok,
  list_ok,
  array_ok,
  bases_ok,
  object_pairs_ok,
  object_words_ok,
  object_ok,
  ref_ok,
  schema_rule,
  schema_ok,
};

use layout::words::{NONE, SCHEMA_WORDS};
use layout::{Tables, kind};
use lists::{list_below, optional_below, pairs_ok};
use records::Counts;

// Whether the words from k on are 0.
fn unused_from(t: &Tables, s: u32, k: u32) -> bool
    ensures { let T = tables_of t.now in result ≡ unused_from T.schemas s k }
{
    (k..SCHEMA_WORDS as u32).all(|i| t.schema_word(s, i) == 0)
}

#[tactic(auto, unfolding(crate::specs::Schemas::schema_note_ok))]
fn schema_note_ok(z: Counts, t: &Tables, s: u32) -> bool
    ensures { let T = tables_of t.now in result ≡ schema_note_ok z T.schemas s }
{
    optional_below(t.schema_note(s), z.notes)
}

#[tactic(auto, unfolding(crate::specs::Schemas::true_ok))]
fn true_ok(t: &Tables, s: u32) -> bool
    ensures { let T = tables_of t.now in result ≡ true_ok T.schemas s }
{
    t.schema_note(s) == NONE && unused_from(t, s, 2)
}

#[tactic(auto, unfolding(crate::specs::Schemas::number_ok))]
fn number_ok(z: Counts, t: &Tables, s: u32) -> bool
    ensures { let T = tables_of t.now in result ≡ number_ok z T.schemas s }
{
    let count = z.numbers;
    optional_below(t.number_minimum(s), count)
        && optional_below(t.number_maximum(s), count)
        && optional_below(t.number_exclusive_minimum(s), count)
        && optional_below(t.number_exclusive_maximum(s), count)
        && optional_below(t.number_multiple(s), count)
        && unused_from(t, s, 7)
}

#[tactic(auto, unfolding(crate::specs::Schemas::string_ok))]
fn string_ok(z: Counts, t: &Tables, s: u32) -> bool
    ensures { let T = tables_of t.now in result ≡ string_ok z T.schemas s }
{
    optional_below(t.string_pattern(s), z.texts) && unused_from(t, s, 5)
}

// An enum's nodes, or earlier schemas.
#[tactic(auto, unfolding(crate::specs::Schemas::list_ok))]
fn list_ok(t: &Tables, s: u32, limit: usize) -> bool
    ensures { let T = tables_of t.now in result ≡ list_ok T.links T.schemas s limit }
{
    list_below(t, t.list_first(s), text::wide(t.list_count(s)), limit) && unused_from(t, s, 4)
}

#[tactic(auto, unfolding(crate::specs::Schemas::array_ok))]
fn array_ok(t: &Tables, s: u32) -> bool
    ensures { let T = tables_of t.now in result ≡ array_ok T.schemas s }
{
    let unique = t.array_unique(s);
    optional_below(t.array_items(s), s as usize)
        && (unique == NONE || unique <= 1)
        && unused_from(t, s, 6)
}

#[tactic(auto, unfolding(crate::specs::Schemas::bases_ok))]
fn bases_ok(t: &Tables, s: u32) -> bool
    ensures { let T = tables_of t.now in result ≡ bases_ok T.links T.schemas s }
{
    let first = t.bases_first(s);
    let count = t.bases_count(s);
    if first == NONE {
        count == 0
    } else {
        list_below(t, first, text::wide(count), s as usize)
    }
}

// The properties and the pattern properties.
#[tactic(auto, unfolding(crate::specs::Schemas::object_pairs_ok))]
fn object_pairs_ok(z: Counts, t: &Tables, s: u32) -> bool
    ensures { let T = tables_of t.now in
        result ≡ object_pairs_ok z T.pool T.texts T.links T.schemas s }
{
    let limit = s as usize;
    let known = z.texts;
    pairs_ok(
        t,
        t.properties_first(s),
        t.properties_count(s),
        known,
        limit,
    ) && pairs_ok(
        t,
        t.pattern_properties_first(s),
        t.pattern_properties_count(s),
        known,
        limit,
    )
}

// The words after them.
#[tactic(auto, unfolding(crate::specs::Schemas::object_words_ok))]
fn object_words_ok(z: Counts, t: &Tables, s: u32) -> bool
    ensures { let T = tables_of t.now in result ≡ object_words_ok z T.links T.schemas s }
{
    let limit = s as usize;
    optional_below(t.additional_properties(s), limit)
        && list_below(
            t,
            t.required_first(s),
            text::wide(t.required_count(s)),
            z.texts,
        )
        && t.object_closed(s) <= 1
        && optional_below(t.property_names(s), limit)
        && bases_ok(t, s)
}

#[tactic(auto, unfolding(crate::specs::Schemas::object_ok))]
fn object_ok(z: Counts, t: &Tables, s: u32) -> bool
    ensures { let T = tables_of t.now in result ≡ object_ok z T.pool T.texts T.links T.schemas s }
{
    object_pairs_ok(z, t, s) && object_words_ok(z, t, s)
}

#[tactic(auto, unfolding(crate::specs::Schemas::ref_ok))]
fn ref_ok(z: Counts, t: &Tables, s: u32) -> bool
    ensures { let T = tables_of t.now in result ≡ ref_ok z T.schemas s }
{
    text::wide(t.ref_text(s)) < z.texts && t.ref_eager(s) <= 1 && unused_from(t, s, 4)
}

#[tactic(auto, unfolding(crate::specs::Parts::is_list))]
fn is_list(kind: u32) -> bool
    ensures { result ≡ is_list kind }
{
    kind == kind::ENUM || kind == kind::ANY_OF || kind == kind::ALL_OF
}

// An enum lists nodes, anyOf and allOf earlier schemas.
#[tactic(auto, unfolding(crate::specs::Parts::list_limit))]
fn list_limit(z: Counts, s: u32, kind: u32) -> usize
    ensures { result ≡ list_limit z s kind }
{
    if kind == kind::ENUM {
        z.nodes
    } else {
        s as usize
    }
}

// The kinds whose words name no list.
#[tactic(auto, unfolding(crate::specs::Parts::plain_rule))]
fn plain_rule(z: Counts, t: &Tables, s: u32, kind: u32) -> bool
    ensures { let T = tables_of t.now in result ≡ plain_rule z T.schemas s kind }
{
    match kind {
        kind::TRUE => true_ok(t, s),
        kind::BOOLEAN | kind::NULL | kind::ANY => unused_from(t, s, 2),
        kind::NUMBER => number_ok(z, t, s),
        kind::STRING => string_ok(z, t, s),
        kind::ARRAY => array_ok(t, s),
        kind::REF => ref_ok(z, t, s),
        _ => false,
    }
}

fn schema_rule(z: Counts, t: &Tables, s: u32, kind: u32) -> bool
    ensures { let T = tables_of t.now in
        result ≡ schema_rule z T.pool T.texts T.links T.schemas s kind }
{
    if is_list(kind) {
        return list_ok(t, s, list_limit(z, s, kind));
    }
    if kind == kind::OBJECT {
        return object_ok(z, t, s);
    }
    plain_rule(z, t, s, kind)
}

#[tactic(auto, unfolding(crate::specs::Schemas::schema_ok))]
pub fn schema_ok(z: Counts, t: &Tables, s: u32) -> bool
    ensures { let T = tables_of t.now in result ≡ schema_ok z T.pool T.texts T.links T.schemas s }
{
    schema_note_ok(z, t, s) && schema_rule(z, t, s, t.schema_kind(s))
}
