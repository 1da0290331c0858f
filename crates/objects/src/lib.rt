// An object before its entries.
#![tactic(auto)]

ghost use Rattle.std.specs.Prelude.{◌≡◌};
ghost use Rattle.layout.specs.Lent.{tables_of};
ghost use Rattle.layout.specs.Layout.{
  properties_first,
  properties_count,
  required_first,
  required_count,
  object_minimum,
  object_maximum,
};
ghost use Rattle.schema.specs.Look.{slice};
ghost use Rattle.judge.specs.Judge.{
  has_earlier,
  is_duplicate,
  keys_verdict,
  object_verdict,
  has_key,
  number_or,
  missing,
  required_verdict,
  size_verdict,
  before_entries,
};

use error::{Detail, Reason};
use judge::Wrong;
use layout::words::NONE;
use layout::{Tables, kind, node};

// Whether one of the first k entries has that string key.
fn has_earlier(t: &Tables, n: u32, text: u32, k: u32) -> bool
    ensures { let T = tables_of t.now in
        result ≡ has_earlier T.pool T.texts T.nodes T.links n text k }
{
    let bytes = t.texts.text(text);
    (0..k).any(|i| {
        let key = lookup::entry_key(t, n, i);
        lookup::key_has(t, text, bytes, key)
    })
}

// Whether the key of entry k is a string that an earlier key equals.
#[tactic(auto, unfolding(judge::specs::Judge::is_duplicate))]
fn is_duplicate(t: &Tables, n: u32, k: u32) -> bool
    ensures { let T = tables_of t.now in result ≡ is_duplicate T.pool T.texts T.nodes T.links n k }
{
    let key = lookup::entry_key(t, n, k);
    let text = t.node_a(key);
    t.node_kind(key) == node::STRING && has_earlier(t, n, text, k)
}

// Answer 13 at the later of two equal string keys.
pub fn check_keys(t: &Tables, n: u32) -> Result<(), Wrong>
    ensures { let T = tables_of t.now in result ≡ keys_verdict T.pool T.texts T.nodes T.links n }
{
    let count = t.node_b(n);
    for k in 0..count {
        if is_duplicate(t, n, k) {
            let key = lookup::entry_key(t, n, k);
            let detail = Detail::Key(t.node_a(key));
            return Err(Wrong::Value {
                reason: Reason::DuplicateKey,
                node: key,
                detail,
            });
        }
    }
    Ok(())
}

// The type, then the keys.
#[tactic(auto, using(judge::proofs::Verdicts::kind_fits, judge::proofs::Verdicts::kind_misfits), unfolding(judge::specs::Judge::object_verdict))]
fn check_type(t: &Tables, n: u32) -> Result<(), Wrong>
    ensures { let T = tables_of t.now in result ≡ object_verdict T.pool T.texts T.nodes T.links n }
{
    judge::check_kind(t, node::OBJECT, kind::OBJECT, n)?;
    check_keys(t, n)
}

// Whether an object has a string key with the bytes of that text.
#[tactic(auto, unfolding(judge::specs::Judge::has_key))]
pub fn has_key(t: &Tables, n: u32, text: u32) -> bool
    ensures { let T = tables_of t.now in result ≡ has_key T.pool T.texts T.nodes T.links n text }
{
    lookup::last_entry(t, n, text).is_some()
}

fn number_or(f: Option<u32>) -> u32
    ensures { result ≡ number_or f }
{
    f.unwrap_or(NONE)
}

// Answer 2: the text, and its property's schema or NONE.
#[tactic(auto, unfolding(judge::specs::Judge::missing))]
fn missing_property(t: &Tables, n: u32, s: u32, text: u32) -> Result<(), Wrong>
    ensures { let T = tables_of t.now in
        result ≡ missing T.pool T.texts T.links (properties_first T.schemas s)
        (properties_count T.schemas s) n text }
{
    let first = t.properties_first(s);
    let count = t.properties_count(s);
    let schema = number_or(lookup::property(t, first, count, text));
    let detail = Detail::Property { text, schema };
    Err(Wrong::Value {
        reason: Reason::MissingProperty,
        node: n,
        detail,
    })
}

// Answer 2 at the first required text that is no key.
fn check_required(t: &Tables, n: u32, s: u32) -> Result<(), Wrong>
    ensures { let T = tables_of t.now in
        result ≡ required_verdict T.pool T.texts T.nodes T.links (properties_first T.schemas s)
        (properties_count T.schemas s) n
        (slice T.links (required_first T.schemas s) (required_count T.schemas s)) }
{
    let first = t.required_first(s);
    let count = t.required_count(s);
    for i in 0..count {
        let text = t.link(first, i);
        if !has_key(t, n, text) {
            return missing_property(t, n, s, text);
        }
    }
    Ok(())
}

// Counts: all entries are counted.
#[tactic(auto, unfolding(judge::specs::Judge::size_verdict))]
pub fn check_size(t: &Tables, n: u32, s: u32) -> Result<(), Wrong>
    ensures { let T = tables_of t.now in
        result ≡ size_verdict T.nodes (object_minimum T.schemas s) (object_maximum T.schemas s) n }
{
    let count = t.node_b(n);
    let least = t.object_minimum(s);
    let most = t.object_maximum(s);
    judge::check_count(Reason::PropertyCount, n, least, most, count)
}

// All that an object is asked before its entries: type, duplicate keys, required, counts.
#[tactic(auto, using(judge::proofs::Verdicts::first_fine, judge::proofs::Verdicts::first_wrong_lem), unfolding(judge::specs::Judge::before_entries))]
pub fn check_object(t: &Tables, n: u32, s: u32) -> Result<(), Wrong>
    ensures { let T = tables_of t.now in
        result ≡ before_entries T.pool T.texts T.nodes T.schemas T.links s n }
{
    check_type(t, n)?;
    check_required(t, n, s)?;
    check_size(t, n, s)
}
