// A number schema.
ghost use Rattle.std.specs.Prelude.{◌≡◌};
ghost use Rattle.layout.specs.Lent.{tables_of};
ghost use Rattle.schema.specs.Look.{own_words};
ghost use Rattle.judge.specs.Judge.{real_at, bounds_of, number_wrong, value_verdict, number_verdict};

use crate::Wrong;
use error::{Detail, Reason};
use layout::words::NONE;
use layout::{Tables, kind, node};
use number::tests::{Bounds, NumberFault};

// A number of table 8, NaN where it is absent.
#[tactic(auto, using(crate::proofs::Numbers::nan_pattern), unfolding(crate::specs::Judge::real_at))]
pub fn real_at(t: &Tables, place: u32) -> f64
    ensures { let T = tables_of t.now in result ≡ real_at T.numbers place }
{
    if place == NONE {
        return f64::NAN;
    }
    number::real::float_of(t.number(place))
}

fn bounds(t: &Tables, s: u32) -> Bounds
    ensures { let T = tables_of t.now in result ≡ bounds_of T.numbers (own_words T.schemas s 2 14) }
{
    Bounds {
        minimum: real_at(t, t.number_minimum(s)),
        maximum: real_at(t, t.number_maximum(s)),
        exclusive_minimum: real_at(t, t.number_exclusive_minimum(s)),
        exclusive_maximum: real_at(t, t.number_exclusive_maximum(s)),
        multiple_of: real_at(t, t.number_multiple(s)),
    }
}

// Answers 5 and 6.
fn number_wrong(n: u32, check: Result<(), NumberFault>) -> Result<(), Wrong>
    ensures { result ≡ number_wrong n check }
{
    let (reason, detail) = match check {
        Ok(()) => return Ok(()),
        Err(NumberFault::OutOfRange(range)) => (Reason::OutOfRange, Detail::OutOfRange(range)),
        Err(NumberFault::NotMultiple(value, multiple)) => (
            Reason::NotMultiple,
            Detail::Multiple(value, multiple),
        ),
    };
    Err(Wrong::Value {
        reason,
        node: n,
        detail,
    })
}

// A value against the bounds of a number schema.
#[tactic(auto, unfolding(crate::specs::Judge::value_verdict))]
fn check_value(t: &Tables, value: f64, n: u32, s: u32) -> Result<(), Wrong>
    ensures { let T = tables_of t.now in
        result ≡ value_verdict T.numbers (own_words T.schemas s 2 14) n value }
{
    number_wrong(n, number::tests::check_number(value, bounds(t, s)))
}

#[tactic(auto, unfolding(crate::specs::Judge::number_verdict))]
pub fn validate_number(t: &Tables, n: u32, s: u32) -> Result<(), Wrong>
    ensures { let T = tables_of t.now in
        result ≡ number_verdict T.nodes T.numbers (own_words T.schemas s 2 14) n }
{
    let value = match t.node_kind(n) {
        node::INTEGER => {
            let word = t.number(t.node_a(n));
            number::integer::nearest_f64(word)
        }
        node::REAL => real_at(t, t.node_a(n)),
        _ => return crate::type_mismatch(t, kind::NUMBER, n),
    };
    check_value(t, value, n, s)
}
