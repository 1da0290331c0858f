// Lists that merging joins: required texts, additional schemas, names. Each is laid at the front of a room; None where it is too short. What ends
// in `_within`, and `lay_offer`, is told how many links stand before the room, `at`, and lays nothing past the limit of the links: compiling calls
// that, by `lay_all`. The same without the ending fills any room that is long enough.
#![tactic(auto)]

ghost use Rattle.std.specs.Prelude.{◌≡◌, ◌==◌, ℕ, Bool, ◌≤◌, ◌<◌, ◌^◌, true, false, []};
ghost use Rattle.std.specs.List.{list_any};
ghost use Rattle.layout.specs.Layout.{NONE, object_closed};
ghost use Rattle.schema.specs.Look.{slice};
ghost use Rattle.text.specs.Text.{same_text};
ghost use Rattle.merge.specs.Merge.{put_all};
ghost use Rattle.merge.specs.Pairs.{pairs_at, flat_pairs, merge_all, record_pairs};
ghost use Rattle.joins.specs.Joins.{note_field, detects_case, offer_of, keep_one, joined, tally_one, tally, required_of, offered_of, no_offers, join_words, closed_of, pairs_joined, required_joined, pair_words, required_words, Below, Filled, FilledWithin, ListedWithin, Linked};

use layout::schema::{
    PATTERN_PROPERTIES, PROPERTIES, additional_properties, object_closed, property_names,
    required_count, required_first, schema_kind, schema_note, schema_word,
};
use layout::words::{MOST_LINKS, NONE, note_word};
use layout::{kind, note};
use text::{Texts, word};

// How many schemas are offered, and the last of them or NONE.
#[derive(Clone, Copy)]
pub struct Offers {
    pub n: usize,
    pub last: u32,
}

// How many words each list of a merged object takes in the links.
#[derive(Clone, Copy)]
pub struct Lists {
    pub properties: usize,
    pub patterns: usize,
    pub required: usize,
    pub additional: usize,
    pub names: usize,
}

// The bases of an object, and the used words of the tables once they are compiled.
#[derive(Clone, Copy)]
pub struct Bases<'a, 'l> {
    pub notes: &'a [u32],
    pub schemas: &'a [u32],
    pub links: &'l [u32],
    pub objects: &'a [u32],
}

// The derived object itself, and the words of the tables that were used before.
#[derive(Clone, Copy)]
pub struct Own<'a, 'l> {
    pub schemas: &'a [u32],
    pub links: &'l [u32],
    pub object: u32,
}

// Word k of the note of record b; NONE where it has no note.
pub fn note_field(notes: &[u32], schemas: &[u32], b: u32, k: u32) -> u32
    ensures { result ≡ note_field notes.now schemas.now b k }
{
    let note = schema_note(schemas, b);
    if note == NONE {
        return NONE;
    }
    note_word(notes, note, k)
}

// Whether record w is a string schema with case-detection.
fn detects(notes: &[u32], schemas: &[u32], w: u32) -> bool
    ensures { result ≡ detects_case notes.now schemas.now w }
{
    schema_kind(schemas, w) == kind::STRING
        && note_field(notes, schemas, w, note::CASE_DETECTION) == 1
}

// What base b offers to a join: its names schema if that counts, or its additional schema; else NONE. `names` is a truth value since
// the definition `offer_of` takes it.
fn offer(notes: &[u32], schemas: &[u32], names: bool, b: u32) -> u32
    ensures { result ≡ offer_of notes.now schemas.now names b }
{
    if !names {
        return additional_properties(schemas, b);
    }
    let w = property_names(schemas, b);
    if detects(notes, schemas, w) { NONE } else { w }
}

// One more offer.
fn tallied(t: Offers, w: u32) -> Offers
    requires { t.n < 2 ^ 63 }
    ensures { result ≡ tally_one t w }
{
    if w == NONE {
        return t;
    }
    Offers {
        n: t.n + 1,
        last: w,
    }
}

// Lays the count words that stand at first in the links: how many they are, unless the room is too short.
pub fn lay_list(links: &[u32], first: u32, count: u32, room: &mut [u32]) -> Option<usize>
    ensures { Filled room.old room.new (slice links.now first count) result }
{
    let count = count as usize;
    if room.len() < count {
        return None;
    }
    for i in 0..count {
        room[i] = word(links, (first as usize) + i);
    }
    Some(count)
}

// The required lists of the bases, one after the other. Its loop stands again in `lay_offers`, for the reason at `lay_required_within`.
pub fn lay_required(bases: Bases, room: &mut [u32]) -> Option<usize>
    ensures { let required = required_of bases.entry.schemas.now bases.entry.links.now in
        Filled room.old room.new (joined required bases.entry.objects.now) result }
{
    let mut end = 0;
    for base in bases.objects {
        let first = required_first(bases.schemas, *base);
        let count = required_count(bases.schemas, *base);
        end += lay_list(bases.links, first, count, &mut room[end..])?;
    }
    Some(end)
}

// What the bases offer to the join of names, or to that of additional.
pub fn lay_offers(bases: Bases, names: bool, room: &mut [u32]) -> Option<usize>
    ensures { let offered = offered_of bases.entry.notes.now bases.entry.schemas.now names in
        Filled room.old room.new (joined offered bases.entry.objects.now) result }
{
    let mut end = 0;
    for base in bases.objects {
        let w = offer(bases.notes, bases.schemas, names, *base);
        end += lay_offer(w, 0, &mut room[end..])?;
    }
    Some(end)
}

// The merged pairs of the lists at word k, as links: those of the bases, then the derived object's own, which stand at first.
pub fn lay_pairs(
    texts: &Texts,
    bases: Bases,
    k: u32,
    own_links: &[u32],
    first: u32,
    count: u32,
    room: &mut [u32],
) -> Option<usize>
    requires { k ≤ 14 }
    ensures { let same = same_text texts.now.pool.now texts.now.records.now in
        let list = record_pairs bases.entry.schemas.now bases.entry.links.now k in
        let merged = merge_all same list [] bases.entry.objects.now in
        let own = pairs_at own_links.now first count in
        Filled room.old room.new (flat_pairs (put_all same merged own)) result }
{
    let pairs = merge::merge_pairs(
        texts,
        bases.schemas,
        bases.links,
        bases.objects,
        k,
        own_links,
        first,
        count,
        room,
    )?;
    Some(pairs * 2)
}

// The links of a join of n offers, the derived object's own last: none where fewer than two are offered.
pub fn lay_join(bases: Bases, names: bool, own: u32, n: usize, room: &mut [u32]) -> Option<usize>
    ensures { let offered = offered_of bases.entry.notes.now bases.entry.schemas.now names in
        let words = join_words n (joined offered bases.entry.objects.now) own in
        Filled room.old room.new words result }
{
    if n <= 1 {
        return Some(0);
    }
    let end = lay_offers(bases, names, room)?;
    let last = lay_offer(own, 0, &mut room[end..])?;
    Some(end + last)
}

// Lays the count words that stand at first in the links: how many they are, unless the room is too short or they would pass the links' limit.
pub fn lay_list_within(
    links: &[u32],
    first: u32,
    count: u32,
    at: usize,
    room: &mut [u32],
) -> Option<usize>
    ensures { FilledWithin at room.old room.new (slice links.now first count) result }
{
    let count = count as usize;
    if MOST_LINKS < at {
        return None;
    }
    let most = room.len().min(MOST_LINKS - at);
    if most < count {
        return None;
    }
    for k in 0..count {
        room[k] = word(links, (first as usize) + k);
    }
    Some(count)
}

// Lays an offer, unless it is NONE: how many words that is, unless the room is too short or it would pass the links' limit.
pub fn lay_offer(w: u32, at: usize, room: &mut [u32]) -> Option<usize>
    ensures { FilledWithin at room.old room.new (keep_one w) result }
{
    if MOST_LINKS < at {
        return None;
    }
    if w == NONE {
        return Some(0);
    }
    let left = room.len().min(MOST_LINKS - at);
    if left == 0 {
        return None;
    }
    room[0] = w;
    Some(1)
}

// The required lists of the bases, one after the other, unless the room is too short or they would pass the links' limit. Its loop stands again in
// `lay_offers_within`: a shared one is no plainer, it would take a closure that writes.
pub fn lay_required_within(bases: Bases, at: usize, room: &mut [u32]) -> Option<usize>
    ensures { let required = required_of bases.entry.schemas.now bases.entry.links.now in
        FilledWithin at room.old room.new (joined required bases.entry.objects.now) result }
{
    if MOST_LINKS < at {
        return None;
    }
    let mut end = 0;
    for base in bases.objects {
        let first = required_first(bases.schemas, *base);
        let count = required_count(bases.schemas, *base);
        end += lay_list_within(bases.links, first, count, at + end, &mut room[end..])?;
    }
    Some(end)
}

// What the bases offer to the join of names, or to that of additional, unless the room is too short or they would pass the links' limit.
pub fn lay_offers_within(bases: Bases, names: bool, at: usize, room: &mut [u32]) -> Option<usize>
    ensures { let offered = offered_of bases.entry.notes.now bases.entry.schemas.now names in
        FilledWithin at room.old room.new (joined offered bases.entry.objects.now) result }
{
    if MOST_LINKS < at {
        return None;
    }
    let mut end = 0;
    for base in bases.objects {
        let w = offer(bases.notes, bases.schemas, names, *base);
        end += lay_offer(w, at + end, &mut room[end..])?;
    }
    Some(end)
}

// How many schemas are offered by the bases and by the derived object, and the last of them.
pub fn count_offers(notes: &[u32], schemas: &[u32], bases: &[u32], names: bool, own: u32) -> Offers
    ensures { let offered = tally (offer_of notes.now schemas.now names) no_offers bases.now in
        result ≡ tally_one offered own }
{
    let mut t = Offers { n: 0, last: NONE };
    for base in bases {
        t = tallied(t, offer(notes, schemas, names, *base));
    }
    tallied(t, own)
}

// The merged pairs of the lists at word k, as links: those of the bases, then the derived object's own, which stand at first: how many words they
// take, unless the room is too short or they would pass the links' limit.
pub fn lay_pairs_within(
    texts: &Texts,
    bases: Bases,
    k: u32,
    own_links: &[u32],
    first: u32,
    count: u32,
    at: usize,
    room: &mut [u32],
) -> Option<usize>
    requires { k ≤ 14 }
    ensures { let same = same_text texts.now.pool.now texts.now.records.now in
        let list = record_pairs bases.entry.schemas.now bases.entry.links.now k in
        let merged = merge_all same list [] bases.entry.objects.now in
        let own = pairs_at own_links.now first count in
        FilledWithin at room.old room.new (flat_pairs (put_all same merged own)) result }
{
    let n = merge::merge_pairs_within(
        texts,
        bases.schemas,
        bases.links,
        bases.objects,
        k,
        own_links,
        first,
        count,
        at,
        room,
    )?;
    Some(n * 2)
}

// The links of a join of n offers, the derived object's own last, unless the room is too short or they would pass the links' limit. Fewer than
// two offers are no join, and nothing is laid.
pub fn lay_join_within(
    bases: Bases,
    names: bool,
    own: u32,
    n: usize,
    at: usize,
    room: &mut [u32],
) -> Option<usize>
    ensures { let offered = offered_of bases.entry.notes.now bases.entry.schemas.now names in
        let words = join_words n (joined offered bases.entry.objects.now) own in
        FilledWithin at room.old room.new words result }
{
    if MOST_LINKS < at {
        return None;
    }
    if n < 2 {
        return Some(0);
    }
    let end = lay_offers_within(bases, names, at, room)?;
    let last = lay_offer(own, at + end, &mut room[end..])?;
    Some(end + last)
}

// Whether a base is closed. Written straight into `any_closed`, its proof did not close.
fn any_base_closed(schemas: &[u32], bases: &[u32]) -> bool
    ensures { result ≡ list_any (λ b. object_closed schemas.now b == 1) bases.now }
{
    bases.iter().any(|base| object_closed(schemas, *base) == 1)
}

// Whether a base or the derived object is closed.
pub fn any_closed(schemas: &[u32], bases: &[u32], own: bool) -> bool
    ensures { result ≡ closed_of schemas.now own bases.now }
{
    any_base_closed(schemas, bases) || own
}

// The merged pairs of the lists at word k: those of the bases, then those of the derived object, uncompiled.
fn lay_merged(
    texts: &Texts,
    bases: Bases,
    own: Own,
    k: u32,
    at: usize,
    room: &mut [u32],
) -> Option<usize>
    requires { k ≤ 14 }
    ensures { let same = same_text texts.now.pool.now texts.now.records.now in
        let list = record_pairs bases.entry.schemas.now bases.entry.links.now k in
        let last = record_pairs own.entry.schemas.now own.entry.links.now k in
        let pairs = pairs_joined same list last bases.entry.objects.now own.entry.object in
        FilledWithin at room.old room.new pairs result }
{
    let first = schema_word(own.schemas, own.object, k);
    let count = schema_word(own.schemas, own.object, k + 1);
    lay_pairs_within(texts, bases, k, own.links, first, count, at, room)
}

// The required lists of the bases, then that of the derived object.
fn lay_all_required(bases: Bases, own: Own, at: usize, room: &mut [u32]) -> Option<usize>
    ensures { let required = required_of bases.entry.schemas.now bases.entry.links.now in
        let last = required_of own.entry.schemas.now own.entry.links.now in
        let words = required_joined required last bases.entry.objects.now own.entry.object in
        FilledWithin at room.old room.new words result }
{
    let first = required_first(own.schemas, own.object);
    let count = required_count(own.schemas, own.object);
    let end = lay_required_within(bases, at, room)?;
    let last = lay_list_within(own.links, first, count, at + end, &mut room[end..])?;
    Some(end + last)
}

// The links of a merged object, in order: properties, patterns, required, joined additional, joined names.
fn lay_lists(
    texts: &Texts,
    bases: Bases,
    own: Own,
    own_additional: u32,
    offers: usize,
    named: usize,
    at: usize,
    room: &mut [u32],
) -> Option<Lists>
    ensures { let same = same_text texts.now.pool.now texts.now.records.now in
        let pairs = λ (k : ℕ). record_pairs bases.entry.schemas.now bases.entry.links.now k in
        let own_pairs = λ (k : ℕ). record_pairs own.entry.schemas.now own.entry.links.now k in
        let required = required_of bases.entry.schemas.now bases.entry.links.now in
        let own_required = required_of own.entry.schemas.now own.entry.links.now in
        let each = λ (names : Bool). offered_of bases.entry.notes.now bases.entry.schemas.now names in
        let offered = λ (names : Bool). joined (each names) bases.entry.objects.now in
        ListedWithin at room.old room.new
        (pairs_joined same (pairs 2) (own_pairs 2) bases.entry.objects.now own.entry.object)
        (pairs_joined same (pairs 4) (own_pairs 4) bases.entry.objects.now own.entry.object)
        (required_joined required own_required bases.entry.objects.now own.entry.object)
        (join_words offers (offered false) own_additional)
        (join_words named (offered true) NONE)
        result }
{
    let properties = lay_merged(texts, bases, own, PROPERTIES, at, room)?;
    let at = at + properties;
    let room = &mut room[properties..];
    let patterns = lay_merged(texts, bases, own, PATTERN_PROPERTIES, at, room)?;
    let at = at + patterns;
    let room = &mut room[patterns..];
    let required = lay_all_required(bases, own, at, room)?;
    let at = at + required;
    let room = &mut room[required..];
    let additional = lay_join_within(bases, false, own_additional, offers, at, room)?;
    let at = at + additional;
    let room = &mut room[additional..];
    let names = lay_join_within(bases, true, NONE, named, at, room)?;
    Some(Lists {
        properties,
        patterns,
        required,
        additional,
        names,
    })
}

// The same after the first `at` of the links, of which those below bound are read for the bases and those below own for the derived object.
pub fn lay_all<'a>(
    texts: &Texts,
    notes: &'a [u32],
    schemas: &'a [u32],
    links: &mut [u32],
    bases: &'a [u32],
    bound: usize,
    own_schemas: &'a [u32],
    own: usize,
    s: u32,
    additional: u32,
    offers: usize,
    named: usize,
    at: usize,
) -> Option<Lists>
    requires { Below bound own at }
    ensures { let same = same_text texts.now.pool.now texts.now.records.now in
        let pairs = λ (k : ℕ).
        pair_words same schemas.now own_schemas.now bound own links.old bases.now k s in
        let required = required_words schemas.now own_schemas.now bound own links.old bases.now s in
        let offered = λ (names : Bool). joined (offered_of notes.now schemas.now names) bases.now in
        Linked links.old links.new at (pairs 2) (pairs 4) required
        (join_words offers (offered false) additional)
        (join_words named (offered true) NONE)
        result }
{
    if links.len() < at {
        return None;
    }
    let (read, room) = links.split_at_mut(at);
    let read = &*read;
    let all = Bases {
        notes,
        schemas,
        links: &read[..bound],
        objects: bases,
    };
    let derived = Own {
        schemas: own_schemas,
        links: &read[..own],
        object: s,
    };
    lay_lists(texts, all, derived, additional, offers, named, at, room)
}

#[cfg(test)]
mod tests;
