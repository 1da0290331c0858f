// The keys of objects: which entry counts, and the value of a key.
ghost use Rattle.std.specs.Prelude.{◌≡◌};
ghost use Rattle.layout.specs.Lent.{tables_of};
ghost use Rattle.json_equality.specs.Walk.{is_last_of, key_value_of, key_in_of, keys_in_of, counterpart_of};

use layout::{Tables, node};

// Whether entry k is the last of the object n with that key.
fn is_last(t: &Tables, n: u32, text: u32, k: u32) -> bool
    ensures { let T = tables_of t.now in
        result ≡ is_last_of T.pool T.texts T.nodes T.links n text k }
{
    lookup::last_entry(t, n, text) == Some(k)
}

// The value node of a key.
fn key_value(t: &Tables, n: u32, text: u32) -> Option<u32>
    ensures { let T = tables_of t.now in
        result ≡ key_value_of T.pool T.texts T.nodes T.links n text }
{
    let last = lookup::last_entry(t, n, text)?;
    Some(lookup::entry_value(t, n, last))
}

// Whether the key of entry k of b is a key of a; one that is no string does not count.
fn key_in(t: &Tables, a: u32, b: u32, k: u32) -> bool
    ensures { let T = tables_of t.now in result ≡ key_in_of T.pool T.texts T.nodes T.links a b k }
{
    let key = lookup::entry_key(t, b, k);
    t.node_kind(key) != node::STRING || lookup::last_entry(t, a, t.node_a(key)).is_some()
}

// Whether every key of b is a key of a.
pub fn keys_in(t: &Tables, a: u32, b: u32) -> bool
    ensures { let T = tables_of t.now in result ≡ keys_in_of T.pool T.texts T.nodes T.links a b }
{
    for k in 0..t.node_b(b) {
        if !key_in(t, a, b, k) {
            return false;
        }
    }
    true
}

// What the value of entry k of a is compared with: the value of its key in b, and itself where the entry does not count.
pub fn counterpart(t: &Tables, a: u32, b: u32, k: u32) -> Option<u32>
    ensures { let T = tables_of t.now in
        result ≡ counterpart_of T.pool T.texts T.nodes T.links a b k }
{
    let key = lookup::entry_key(t, a, k);
    if t.node_kind(key) != node::STRING {
        return Some(lookup::entry_value(t, a, k));
    }
    let text = t.node_a(key);
    if !is_last(t, a, text, k) {
        return Some(lookup::entry_value(t, a, k));
    }
    key_value(t, b, text)
}
