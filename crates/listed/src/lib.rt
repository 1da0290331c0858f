// An enum's listed nodes, and an array before its items.
#![tactic(auto)]

ghost use Rattle.std.specs.Prelude.{◌≡◌, ◌+◌, ◌-◌};
ghost use Rattle.layout.specs.Lent.{tables_of};
ghost use Rattle.layout.specs.Layout.{list_first, list_count};
ghost use Rattle.schema.specs.Look.{slice, own_words};
ghost use Rattle.judge.specs.Judge.{enum_way, unique_way, is_listed, any_repeated, items_of, enum_verdict, unique_verdict, array_verdict};

use error::{Detail, Mode, Reason};
use judge::Wrong;
use layout::{Tables, kind, node};
use number::equal::Equality;

pub fn enum_way(mode: Mode) -> Equality
    ensures { result ≡ enum_way mode }
{
    match mode {
        Mode::Source => Equality::Enum,
        Mode::Standard => Equality::Standard,
    }
}

// Another map than `enum_way`: both by name are plainer than one with the source mode's equality as a parameter.
fn unique_way(mode: Mode) -> Equality
    ensures { result ≡ unique_way mode }
{
    match mode {
        Mode::Source => Equality::Unique,
        Mode::Standard => Equality::Standard,
    }
}

// Whether n equals one of the count nodes linked from first on, skipping the first `from` of them. A string equals only strings.
fn is_listed(way: Equality, t: &Tables, n: u32, first: u32, from: u32, count: u32) -> bool
    ensures { let T = tables_of t.now in
        result ≡ is_listed way T.pool T.texts T.nodes T.links T.numbers n
        (slice T.links (first + from) (count - from)) }
{
    let linked = |i: u32| t.link(first, i);
    if t.node_kind(n) == node::STRING {
        let text = t.node_a(n);
        let bytes = t.texts.text(text);
        return (from..count).any(|i| lookup::key_has(t, text, bytes, linked(i)));
    }
    (from..count).any(|i| { json_equality::equal_nodes(way, t, n, linked(i)) })
}

// Whether one of the count nodes linked from first on equals a later one.
fn any_repeated(way: Equality, t: &Tables, first: u32, count: u32) -> bool
    ensures { let T = tables_of t.now in
        result ≡ any_repeated way T.pool T.texts T.nodes T.links T.numbers
        (slice T.links first count) }
{
    for i in 0..count {
        let x = t.link(first, i);
        if is_listed(way, t, x, first, i + 1, count) {
            return true;
        }
    }
    false
}

#[tactic(auto, using(schema::proofs::Slices::slice_begin), unfolding(judge::specs::Judge::enum_verdict))]
pub fn validate_enum(mode: Mode, t: &Tables, n: u32, s: u32) -> Result<(), Wrong>
    ensures { let T = tables_of t.now in
        result ≡ enum_verdict mode T.pool T.texts T.nodes T.links T.numbers
        (slice T.links (list_first T.schemas s) (list_count T.schemas s)) n }
{
    let first = t.list_first(s);
    let count = t.list_count(s);
    if is_listed(enum_way(mode), t, n, first, 0, count) {
        return Ok(());
    }
    Err(Wrong::Value {
        reason: Reason::NotInEnum,
        node: n,
        detail: Detail::Empty,
    })
}

#[tactic(auto, unfolding(judge::specs::Judge::unique_verdict, judge::specs::Judge::items_of))]
fn check_unique(mode: Mode, t: &Tables, unique: u32, n: u32) -> Result<(), Wrong>
    ensures { let T = tables_of t.now in
        result ≡ unique_verdict mode T.pool T.texts T.nodes T.links T.numbers unique n }
{
    let first = t.node_a(n);
    let count = t.node_b(n);
    if unique == 1 && any_repeated(unique_way(mode), t, first, count) {
        return Err(Wrong::Value {
            reason: Reason::NotUnique,
            node: n,
            detail: Detail::Empty,
        });
    }
    Ok(())
}

// An array before its items: type, minimum, maximum, unique.
#[tactic(auto, using(crate::proofs::Lists::array_fits, crate::proofs::Lists::array_misfits, judge::proofs::Verdicts::first_fine, judge::proofs::Verdicts::first_wrong_lem))]
pub fn check_array(mode: Mode, t: &Tables, n: u32, s: u32) -> Result<(), Wrong>
    ensures { let T = tables_of t.now in
        result ≡ array_verdict mode T.pool T.texts T.nodes T.links T.numbers
        (own_words T.schemas s 3 3) n }
{
    judge::check_kind(t, node::ARRAY, kind::ARRAY, n)?;
    let count = t.node_b(n);
    let least = t.array_minimum(s);
    let most = t.array_maximum(s);
    judge::check_count(Reason::ArrayLength, n, least, most, count)?;
    let unique = t.array_unique(s);
    check_unique(mode, t, unique, n)
}
