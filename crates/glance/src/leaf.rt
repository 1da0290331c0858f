// Numbers, strings and enums.
ghost use Rattle.std.specs.Prelude.{◌≡◌};
ghost use Rattle.layout.specs.Lent.{tables_of};
ghost use Rattle.layout.specs.Layout.{list_first, list_count};
ghost use Rattle.lookup.specs.Lookup.{answer_of_pattern};
ghost use Rattle.schema.specs.Look.{slice, own_words};
ghost use Rattle.judge.specs.Judge.{number_verdict, string_verdict, enum_verdict};
ghost use Rattle.glance.specs.Glance.{Passes, at_least, at_most};

use error::{Mode, Reason};
use judge::numeric::real_at;
use layout::words::NONE;
use layout::{Tables, node};

// Whether a value is not below a bound of table 8; an absent one is passed.
#[tactic(auto, unfolding(crate::specs::Glance::at_least))]
fn at_least(t: &Tables, place: u32, value: f64) -> bool
    ensures { let T = tables_of t.now in result ≡ at_least T.numbers place value }
{
    !(value < real_at(t, place))
}

// Whether a value is not above a bound: one line, as its other direction above.
#[tactic(auto, unfolding(crate::specs::Glance::at_most))]
fn at_most(t: &Tables, place: u32, value: f64) -> bool
    ensures { let T = tables_of t.now in result ≡ at_most T.numbers place value }
{
    !(real_at(t, place) < value)
}

// An integer between a minimum and a maximum; other bounds and reals are left to the judgement.
#[tactic(auto, using(crate::proofs::Leaves::number_fine), unfolding(crate::specs::Glance::Passes))]
pub fn number_passes(t: &Tables, n: u32, s: u32) -> bool
    ensures { let T = tables_of t.now in
        Passes result (number_verdict T.nodes T.numbers (own_words T.schemas s 2 14) n) }
{
    if t.node_kind(n) != node::INTEGER
        || t.number_exclusive_minimum(s) != NONE
        || t.number_exclusive_maximum(s) != NONE
        || t.number_multiple(s) != NONE
    {
        return false;
    }
    let word = t.number(t.node_a(n));
    let value = number::integer::nearest_f64(word);
    at_least(t, t.number_minimum(s), value) && at_most(t, t.number_maximum(s), value)
}

// A string without a pattern, by its length.
#[tactic(auto, using(crate::proofs::Leaves::string_fine, crate::proofs::Says::is_fine_lem), unfolding(crate::specs::Glance::Passes))]
pub fn string_passes(mode: Mode, t: &Tables, n: u32, s: u32) -> bool
    ensures { let T = tables_of t.now in
        Passes result (string_verdict mode (answer_of_pattern T.pool T.texts T.patterns) T.pool
        T.texts T.nodes (own_words T.schemas s 2 14) n) }
{
    if t.node_kind(n) != node::STRING || t.string_pattern(s) != NONE {
        return false;
    }
    let count = judge::string::length_in(mode, &t.texts, t.node_a(n));
    let least = t.string_minimum(s);
    let most = t.string_maximum(s);
    judge::check_count(Reason::StringLength, n, least, most, count).is_ok()
}

// A string whose text is listed by its number.
pub fn enum_passes(mode: Mode, t: &Tables, n: u32, s: u32) -> bool
    ensures { let T = tables_of t.now in
        Passes result (enum_verdict mode T.pool T.texts T.nodes T.links T.numbers
        (slice T.links (list_first T.schemas s) (list_count T.schemas s)) n) }
{
    if t.node_kind(n) != node::STRING {
        return false;
    }
    let text = t.node_a(n);
    let first = t.list_first(s);
    let count = t.list_count(s);
    (0..count).any(|i| {
        let x = t.link(first, i);
        crate::object::is_numbered(t, x, text)
    })
}
