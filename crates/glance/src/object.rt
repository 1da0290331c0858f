// An object before its entries.
ghost use Rattle.std.specs.Prelude.{◌≡◌};
ghost use Rattle.layout.specs.Lent.{tables_of};
ghost use Rattle.judge.specs.Judge.{keys_verdict, before_entries};
ghost use Rattle.glance.specs.Glance.{PassesBut, HasKey, HasRequired, numbered};

use layout::{Tables, node};

// Whether a node is a string of that text number.
#[tactic(auto, unfolding(crate::specs::Glance::numbered))]
pub fn is_numbered(t: &Tables, n: u32, text: u32) -> bool
    ensures { let T = tables_of t.now in result ≡ numbered T.nodes text n }
{
    t.node_kind(n) == node::STRING && t.node_a(n) == text
}

// Whether an entry of the object has that text number for its key; place k is tried first, where a file keeps its schema's order.
fn has_number(t: &Tables, n: u32, text: u32, k: u32) -> bool
    ensures { let T = tables_of t.now in HasKey result T.nodes T.links n text }
{
    let count = t.node_b(n);
    let has = |i: u32| is_numbered(t, lookup::entry_key(t, n, i), text);
    (k < count && has(k)) || (0..count).any(|i| has(i))
}

// Whether each required text is, by its number, the key of an entry.
fn required_pass(t: &Tables, n: u32, s: u32) -> bool
    ensures { let T = tables_of t.now in HasRequired result T.nodes T.schemas T.links n s }
{
    let first = t.required_first(s);
    let count = t.required_count(s);
    for i in 0..count {
        let text = t.link(first, i);
        if !has_number(t, n, text, i) {
            return false;
        }
    }
    true
}

// Type, required texts by number, counts: all that comes before the entries, but for duplicate keys.
#[tactic(auto, using(crate::proofs::Keys::object_fine, crate::proofs::Says::is_fine_lem), unfolding(crate::specs::Glance::PassesBut))]
pub fn object_passes(t: &Tables, n: u32, s: u32) -> bool
    ensures { let T = tables_of t.now in
        PassesBut result (keys_verdict T.pool T.texts T.nodes T.links n)
        (before_entries T.pool T.texts T.nodes T.schemas T.links s n) }
{
    t.node_kind(n) == node::OBJECT && required_pass(t, n, s) && objects::check_size(t, n, s).is_ok()
}
