// Merging lists of key and value at the front of a room, such as the one left in the links. What ends in `_within` is told how many links stand
// before the room, `at`, and puts nothing past the limit of the links: compiling calls that. The same without the ending fills any room that is
// long enough.
#![tactic(auto)]

ghost use Rattle.std.specs.Prelude.{◌≡◌, ◌*◌, ◌≤◌, get_or, length, take, drop, []};
ghost use Rattle.text.specs.Text.{same_text};
ghost use Rattle.layout.specs.Layout.{schema_word, schema_words};
ghost use Rattle.merge.specs.Merge.{put, put_all};
ghost use Rattle.merge.specs.Pairs.{pair, pairs_at, merge_all, record_pairs};
ghost use Rattle.merge.specs.Meets.{Placed, PlacedWithin};

use layout::links::{pair_key, pair_value};
use layout::schema::schema_word;
use layout::words::{MOST_LINKS, SCHEMA_WORDS};
use text::Texts;

// The first n words, or all where there are fewer.
pub fn first_words(words: &[u32], n: usize) -> &[u32]
    ensures { result.now ≡ take n words.now }
{
    words.get(..n).unwrap_or(words)
}

// The n words from `at` on, or as many of them as there are.
pub fn words_from(words: &[u32], at: usize, n: usize) -> &[u32]
    ensures { result.now ≡ take n (drop at words.now) }
{
    first_words(words.get(at..).unwrap_or(&words[..0]), n)
}

// The word at an index of the first n words, else 0.
pub fn word(t: &[u32], n: usize, i: usize) -> u32
    ensures { result ≡ get_or (take n t.now) i 0 }
{
    text::word(first_words(t, n), i)
}

// Word k of the schema s, of which there are us.
pub fn field(schemas: &[u32], us: u32, s: u32, k: u32) -> u32
    ensures { result ≡ schema_word (take (us * schema_words) schemas.now) s k }
{
    schema_word(first_words(schemas, (us as usize) * SCHEMA_WORDS), s, k)
}

// Puts a pair among the n pairs at the front of the room: how many stand there now, unless the room is too short. The room is not cut to its n
// pairs: the rest of it is written next.
pub fn put_pair(texts: &Texts, room: &mut [u32], n: usize, key: u32, value: u32) -> Option<usize>
    requires { n * 2 ≤ length room.old }
    ensures { let same = same_text texts.now.pool.now texts.now.records.now in
        Placed room.old room.new (put same (pair key value) (pairs_at room.old 0 n)) result }
{
    for place in 0..n {
        let to = place * 2;
        if texts.same(room[to], key) {
            room[to] = key;
            room[to + 1] = value;
            return Some(n);
        }
    }
    let end = n * 2;
    if room.len() < end + 2 {
        return None;
    }
    room[end] = key;
    room[end + 1] = value;
    Some(n + 1)
}

// Puts the count pairs that stand at first in the links among the n pairs at the front of the room.
pub fn put_pairs(
    texts: &Texts,
    links: &[u32],
    first: u32,
    count: u32,
    room: &mut [u32],
    n: usize,
) -> Option<usize>
    requires { n * 2 ≤ length room.old }
    ensures { let same = same_text texts.now.pool.now texts.now.records.now in
        let new = pairs_at links.now first count in
        Placed room.old room.new (put_all same (pairs_at room.old 0 n) new) result }
{
    let mut n = n;
    for k in 0..count {
        let key = pair_key(links, first, k);
        let value = pair_value(links, first, k);
        n = put_pair(texts, room, n, key, value)?;
    }
    Some(n)
}

// Merges the lists at word k of these records at the front of the room.
pub fn merge_all(
    texts: &Texts,
    schemas: &[u32],
    links: &[u32],
    bases: &[u32],
    k: u32,
    room: &mut [u32],
) -> Option<usize>
    requires { k ≤ 14 }
    ensures { let same = same_text texts.now.pool.now texts.now.records.now in
        let list = record_pairs schemas.now links.now k in
        Placed room.old room.new (merge_all same list [] bases.now) result }
{
    let mut n = 0;
    for object in bases {
        let first = schema_word(schemas, *object, k);
        let count = schema_word(schemas, *object, k + 1);
        n = put_pairs(texts, links, first, count, room, n)?;
    }
    Some(n)
}

// The same, and then the derived record's own list, which stands at first in the links used before.
pub fn merge_pairs(
    texts: &Texts,
    schemas: &[u32],
    links: &[u32],
    bases: &[u32],
    k: u32,
    own_links: &[u32],
    first: u32,
    count: u32,
    room: &mut [u32],
) -> Option<usize>
    requires { k ≤ 14 }
    ensures { let same = same_text texts.now.pool.now texts.now.records.now in
        let merged = merge_all same (record_pairs schemas.now links.now k) [] bases.now in
        let own = pairs_at own_links.now first count in
        Placed room.old room.new (put_all same merged own) result }
{
    let n = merge_all(texts, schemas, links, bases, k, room)?;
    put_pairs(texts, own_links, first, count, room, n)
}

// Puts a pair among the n pairs at the front of the room, before which `at` links stand: how many pairs stand there now, unless the room is too
// short or they would pass the links' limit. The room is not cut to its n pairs: the rest of it is written next.
pub fn put_pair_within(
    texts: &Texts,
    at: usize,
    room: &mut [u32],
    n: usize,
    key: u32,
    value: u32,
) -> Option<usize>
    requires { n * 2 ≤ length room.old }
    ensures { let same = same_text texts.now.pool.now texts.now.records.now in
        PlacedWithin at room.old room.new (put same (pair key value) (pairs_at room.old 0 n)) result }
{
    if MOST_LINKS < at || MOST_LINKS - at < n * 2 {
        return None;
    }
    for k in 0..n {
        let i = k * 2;
        if texts.same(room[i], key) {
            room[i] = key;
            room[i + 1] = value;
            return Some(n);
        }
    }
    let end = n * 2;
    let most = room.len().min(MOST_LINKS - at);
    if most < end + 2 {
        return None;
    }
    room[end] = key;
    room[end + 1] = value;
    Some(n + 1)
}

// Puts the count pairs that stand at first in the links among the n pairs at the front of the room, unless the room is too short or the links'
// limit would be passed.
pub fn put_pairs_within(
    texts: &Texts,
    links: &[u32],
    first: u32,
    count: u32,
    at: usize,
    room: &mut [u32],
    n: usize,
) -> Option<usize>
    requires { n * 2 ≤ length room.old }
    ensures { let same = same_text texts.now.pool.now texts.now.records.now in
        let new = pairs_at links.now first count in
        PlacedWithin at room.old room.new (put_all same (pairs_at room.old 0 n) new) result }
{
    if MOST_LINKS < at || MOST_LINKS - at < n * 2 {
        return None;
    }
    let mut n = n;
    for k in 0..count {
        let key = pair_key(links, first, k);
        let value = pair_value(links, first, k);
        n = put_pair_within(texts, at, room, n, key, value)?;
    }
    Some(n)
}

// Merges the lists at word k of these records at the front of the room: how many pairs they are, unless the room is too short or the links' limit
// would be passed.
pub fn merge_all_within(
    texts: &Texts,
    schemas: &[u32],
    links: &[u32],
    bases: &[u32],
    k: u32,
    at: usize,
    room: &mut [u32],
) -> Option<usize>
    requires { k ≤ 14 }
    ensures { let same = same_text texts.now.pool.now texts.now.records.now in
        let list = record_pairs schemas.now links.now k in
        PlacedWithin at room.old room.new (merge_all same list [] bases.now) result }
{
    if MOST_LINKS < at {
        return None;
    }
    let mut n = 0;
    for base in bases {
        let first = schema_word(schemas, *base, k);
        let count = schema_word(schemas, *base, k + 1);
        n = put_pairs_within(texts, links, first, count, at, room, n)?;
    }
    Some(n)
}

// The same, and then the derived record's own list, which stands at first in the links used before: None likewise.
pub fn merge_pairs_within(
    texts: &Texts,
    schemas: &[u32],
    links: &[u32],
    bases: &[u32],
    k: u32,
    own_links: &[u32],
    first: u32,
    count: u32,
    at: usize,
    room: &mut [u32],
) -> Option<usize>
    requires { k ≤ 14 }
    ensures { let same = same_text texts.now.pool.now texts.now.records.now in
        let merged = merge_all same (record_pairs schemas.now links.now k) [] bases.now in
        let own = pairs_at own_links.now first count in
        PlacedWithin at room.old room.new (put_all same merged own) result }
{
    let n = merge_all_within(texts, schemas, links, bases, k, at, room)?;
    put_pairs_within(texts, own_links, first, count, at, room, n)
}

#[cfg(test)]
mod tests;
