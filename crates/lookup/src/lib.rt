// What is found by a text, compared by bytes: an object's entry, a property, a registry entry, a pattern's answer.
#![tactic(auto)]

ghost use Rattle.std.specs.Prelude.{◌≡◌};
ghost use Rattle.layout.specs.Lent.{tables_of};
ghost use Rattle.text.specs.Text.{text_of, same_bytes, same_text};
ghost use Rattle.lookup.specs.Lookup.{
  other_length,
  key_is,
  entry_key,
  entry_value,
  item_node,
  entry_has_key,
  last_entry,
  property_place,
  property_of,
  resolve_of,
  answers_pattern,
  answer_of_pattern,
};

use layout::{Tables, node, words};
use text::Texts;

// Whether two slices hold the same bytes, by the last byte first: names that differ mostly end differently. `last()` of both,
// compared as options, takes half as many instructions again for a pair.
#[inline(always)]
fn same_from_end(a: &[u8], b: &[u8]) -> bool
    ensures { result ≡ same_bytes a.now b.now }
{
    let n = a.len();
    if n != b.len() {
        return false;
    }
    if 0 < n && a[n - 1] != b[n - 1] {
        return false;
    }
    text::same(a, b)
}

// Whether the record of text t rules out n bytes; a record that runs off gives the empty text, whatever it says.
fn other_length(texts: &Texts, t: u32, n: usize) -> bool
    ensures { result ≡ other_length texts.now.records.now t n }
{
    0 < n && texts.length(t as usize) != n
}

// Whether text t has the bytes of that text, which are at hand. They go beside the texts with their `requires`: one value of text and bytes
// would bring texts of its own, and each search would have to ask that they are these. Part of its callers' loops, as `key_has`.
#[inline(always)]
pub fn is_text(texts: &Texts, t: u32, text: u32, bytes: &[u8]) -> bool
    requires { bytes.now ≡ text_of texts.now.pool.now texts.now.records.now text }
    ensures { result ≡ same_text texts.now.pool.now texts.now.records.now t text }
{
    t == text || (!other_length(texts, t, bytes.len()) && same_from_end(texts.text(t), bytes))
}

// Whether a node is a string with the bytes of that text, which are at hand. It stands in the loops of enum, unique and keys, so it
// is to be part of them.
#[inline(always)]
pub fn key_has(t: &Tables, text: u32, bytes: &[u8], key: u32) -> bool
    requires { let T = tables_of t.now in bytes.now ≡ text_of T.pool T.texts text }
    ensures { let T = tables_of t.now in result ≡ key_is T.pool T.texts T.nodes text key }
{
    t.node_kind(key) == node::STRING && is_text(&t.texts, t.node_a(key), text, bytes)
}

// The key node of an object's entry k.
pub fn entry_key(t: &Tables, n: u32, k: u32) -> u32
    ensures { let T = tables_of t.now in result ≡ entry_key T.nodes T.links n k }
{
    t.pair_key(t.node_a(n), k)
}

// The value node of an object's entry k.
pub fn entry_value(t: &Tables, n: u32, k: u32) -> u32
    ensures { let T = tables_of t.now in result ≡ entry_value T.nodes T.links n k }
{
    t.pair_value(t.node_a(n), k)
}

// The node of an array's item k.
pub fn item(t: &Tables, n: u32, k: u32) -> u32
    ensures { let T = tables_of t.now in result ≡ item_node T.nodes T.links n k }
{
    let first = t.node_a(n);
    t.link(first, k)
}

fn entry_has_key(t: &Tables, n: u32, text: u32, bytes: &[u8], k: u32) -> bool
    requires { let T = tables_of t.now in bytes.now ≡ text_of T.pool T.texts text }
    ensures { let T = tables_of t.now in
        result ≡ entry_has_key T.pool T.texts T.nodes T.links n text k }
{
    key_has(t, text, bytes, entry_key(t, n, k))
}

// The last entry of an object with that string key, whose bytes are at hand.
fn last_with(t: &Tables, n: u32, text: u32, bytes: &[u8]) -> Option<u32>
    requires { let T = tables_of t.now in bytes.now ≡ text_of T.pool T.texts text }
    ensures { let T = tables_of t.now in result ≡ last_entry T.pool T.texts T.nodes T.links n text }
{
    for k in (0..t.node_b(n)).rev() {
        if entry_has_key(t, n, text, bytes, k) {
            return Some(k);
        }
    }
    None
}

// The last entry of an object with that string key.
pub fn last_entry(t: &Tables, n: u32, text: u32) -> Option<u32>
    ensures { let T = tables_of t.now in result ≡ last_entry T.pool T.texts T.nodes T.links n text }
{
    let bytes = t.texts.text(text);
    last_with(t, n, text, bytes)
}

// The place of the pair with that key, whose bytes are at hand.
fn place_with(t: &Tables, first: u32, count: u32, text: u32, bytes: &[u8]) -> Option<u32>
    requires { let T = tables_of t.now in bytes.now ≡ text_of T.pool T.texts text }
    ensures { let T = tables_of t.now in
        result ≡ property_place T.pool T.texts T.links first count text }
{
    for k in 0..count {
        if is_text(&t.texts, t.pair_key(first, k), text, bytes) {
            return Some(k);
        }
    }
    None
}

// The place of a property of that name.
pub fn property_place(t: &Tables, first: u32, count: u32, text: u32) -> Option<u32>
    ensures { let T = tables_of t.now in
        result ≡ property_place T.pool T.texts T.links first count text }
{
    let bytes = t.texts.text(text);
    place_with(t, first, count, text, bytes)
}

// The schema of a property of that name.
pub fn property(t: &Tables, first: u32, count: u32, text: u32) -> Option<u32>
    ensures { let T = tables_of t.now in
        result ≡ property_of T.pool T.texts T.links first count text }
{
    let k = property_place(t, first, count, text)?;
    Some(t.pair_value(first, k))
}

// The schema of the last registry entry of that name.
pub fn resolve(texts: &Texts, registry: &[u32], text: u32) -> Option<u32>
    ensures { result ≡
        resolve_of texts.now.pool.now texts.now.records.now registry.now text }
{
    for i in (0..words::entry_count(registry)).rev() {
        if texts.same(words::entry_text(registry, i), text) {
            return Some(words::entry_schema(registry, i));
        }
    }
    None
}

fn answers_pattern(t: &Tables, pattern: u32, subject: u32, i: usize) -> bool
    ensures { let T = tables_of t.now in
        result ≡ answers_pattern T.pool T.texts T.patterns pattern subject i }
{
    t.texts.same(t.pattern_text(i), pattern) && t.texts.same(t.subject_text(i), subject)
}

// The first answer to that pattern and subject: 0 no, 1 match, 2 invalid.
pub fn pattern_answer(t: &Tables, pattern: u32, subject: u32) -> Option<u32>
    ensures { let T = tables_of t.now in
        result ≡ answer_of_pattern T.pool T.texts T.patterns pattern subject }
{
    for i in 0..t.pattern_count() {
        if answers_pattern(t, pattern, subject, i) {
            return Some(t.pattern_answer(i));
        }
    }
    None
}
