// Lists in the links. Sums are taken in 64 bits, so that no damaged record wraps.
#![tactic(auto)]

ghost use Rattle.std.specs.Prelude.{◌≡◌};
ghost use Rattle.layout.specs.Lent.{tables_of};
ghost use Rattle.text.specs.Text.{text_of};
ghost use Rattle.layout.specs.Layout.{pair_key};
ghost use Rattle.lists.specs.Lists.{
  optional_below,
  list_below,
  pair_ok,
  key_is_new,
  keys_distinct,
  pairs_below,
  pairs_ok,
};

use layout::Tables;
use layout::words::NONE;

// Whether an optional number is absent, or below the limit.
#[tactic(auto, unfolding(crate::specs::Lists::optional_below))]
pub fn optional_below(w: u32, limit: usize) -> bool
    ensures { result ≡ optional_below w limit }
{
    w == NONE || (w as usize) < limit
}

// Whether the count links from first on are there, and name records below the limit.
pub fn list_below(t: &Tables, first: u32, count: usize, limit: usize) -> bool
    ensures { let T = tables_of t.now in result ≡ list_below T.links first count limit }
{
    let Some(rest) = t.links.get(first as usize..) else {
        return false;
    };
    let Some(list) = rest.get(..count) else {
        return false;
    };
    list.iter().all(|link| text::wide(*link) < limit)
}

// Whether pair k holds a text and a schema below their limits.
#[tactic(auto, unfolding(crate::specs::Lists::pair_ok))]
fn pair_ok(t: &Tables, first: u32, known: usize, limit: usize, k: u32) -> bool
    ensures { let T = tables_of t.now in result ≡ pair_ok T.links first known limit k }
{
    text::wide(t.pair_key(first, k)) < known && text::wide(t.pair_value(first, k)) < limit
}

// Whether the pairs are there, and each is good.
fn pairs_below(t: &Tables, first: u32, count: u32, known: usize, limit: usize) -> bool
    ensures { let T = tables_of t.now in result ≡ pairs_below T.links first count known limit }
{
    (first as usize) + (count as usize) * 2 <= t.links.len()
        && (0..count).all(|k| pair_ok(t, first, known, limit, k))
}

// Whether the key of pair j, whose bytes are at hand (as `lookup::is_text` has them), differs in bytes from those before it.
fn key_is_new_with(t: &Tables, first: u32, j: u32, bytes: &[u8]) -> bool
    requires { let T = tables_of t.now in
        bytes.now ≡ text_of T.pool T.texts (pair_key T.links first j) }
    ensures { let T = tables_of t.now in result ≡ key_is_new T.pool T.texts T.links first j }
{
    let key = t.pair_key(first, j);
    (0..j).all(|i| !lookup::is_text(&t.texts, t.pair_key(first, i), key, bytes))
}

// Whether the key of pair j differs in bytes from those before it.
fn key_is_new(t: &Tables, first: u32, j: u32) -> bool
    ensures { let T = tables_of t.now in result ≡ key_is_new T.pool T.texts T.links first j }
{
    let bytes = t.texts.text(t.pair_key(first, j));
    key_is_new_with(t, first, j, bytes)
}

fn keys_distinct(t: &Tables, first: u32, count: u32) -> bool
    ensures { let T = tables_of t.now in result ≡ keys_distinct T.pool T.texts T.links first count }
{
    (0..count).all(|j| key_is_new(t, first, j))
}

// Whether a properties or pattern list is good. Keys are compared only once the pairs are known to be there.
#[tactic(auto, unfolding(crate::specs::Lists::pairs_ok))]
pub fn pairs_ok(t: &Tables, first: u32, count: u32, known: usize, limit: usize) -> bool
    ensures { let T = tables_of t.now in
        result ≡ pairs_ok T.pool T.texts T.links first count known limit }
{
    pairs_below(t, first, count, known, limit) && keys_distinct(t, first, count)
}
