// What a schema's own words say of a node: everything in a visit that visits nothing.
#![tactic(auto)]

pub mod numeric;
pub mod string;

ghost use Rattle.std.specs.Prelude.{◌≡◌};
ghost use Rattle.layout.specs.Lent.{tables_of};
ghost use Rattle.judge.specs.Judge.{
  mismatch,
  kind_verdict,
  is_short,
  is_long,
  count_verdict,
  boolean_verdict,
  null_verdict,
};

use error::{Detail, Reason};
use layout::words::NONE;
use layout::{Tables, kind, node};

// What is wrong with a value, or why that cannot be said. What a judgement names is a `Reason`; a count's test alone is open to any other.
#[derive(Clone, Copy)]
pub enum Wrong<R = Reason> {
    // What is wrong, the node that it names, the detail.
    Value {
        reason: R,
        node: u32,
        detail: Detail,
    },
    BadPattern,
    Unanswered,
}

// Whether a count is under a minimum.
#[tactic(auto, unfolding(crate::specs::Judge::is_short))]
fn is_short(count: u32, least: u32) -> bool
    ensures { result ≡ is_short count least }
{
    least != NONE && count < least
}

// Whether a count is over a maximum: `is_short` the other way round, which a parameter for the comparison would not shorten.
#[tactic(auto, unfolding(crate::specs::Judge::is_long))]
fn is_long(count: u32, most: u32) -> bool
    ensures { result ≡ is_long count most }
{
    most != NONE && most < count
}

// A count against a minimum, then a maximum, for whatever names the answer: a `Reason` here, or any number.
#[tactic(auto, unfolding(crate::specs::Judge::count_verdict))]
pub fn check_count<R: Copy>(
    reason: R,
    n: u32,
    least: u32,
    most: u32,
    count: u32,
) -> Result<(), Wrong<R>>
    ensures { result ≡ count_verdict reason n least most count }
{
    let limit = if is_short(count, least) {
        least
    } else if is_long(count, most) {
        most
    } else {
        return Ok(());
    };
    Err(Wrong::Value {
        reason,
        node: n,
        detail: Detail::Count { count, limit },
    })
}

// Answer 1: the schema kind expected, and the node's kind.
#[tactic(auto, unfolding(crate::specs::Judge::mismatch))]
pub fn type_mismatch(t: &Tables, expected: u32, n: u32) -> Result<(), Wrong>
    ensures { let T = tables_of t.now in result ≡ mismatch T.nodes expected n }
{
    let found = t.node_kind(n);
    Err(Wrong::Value {
        reason: Reason::TypeMismatch,
        node: n,
        detail: Detail::Types { expected, found },
    })
}

// A node of that kind, or answer 1.
pub fn check_kind(t: &Tables, kind: u32, expected: u32, n: u32) -> Result<(), Wrong>
    ensures { let T = tables_of t.now in result ≡ kind_verdict T.nodes kind expected n }
{
    if t.node_kind(n) == kind {
        Ok(())
    } else {
        type_mismatch(t, expected, n)
    }
}

#[tactic(auto, unfolding(crate::specs::Judge::boolean_verdict))]
pub fn validate_boolean(t: &Tables, n: u32) -> Result<(), Wrong>
    ensures { let T = tables_of t.now in result ≡ boolean_verdict T.nodes n }
{
    check_kind(t, node::BOOLEAN, kind::BOOLEAN, n)
}

// A bad value is no null.
#[tactic(auto, unfolding(crate::specs::Judge::null_verdict))]
pub fn validate_null(t: &Tables, n: u32) -> Result<(), Wrong>
    ensures { let T = tables_of t.now in result ≡ null_verdict T.nodes n }
{
    check_kind(t, node::NULL, kind::NULL, n)
}
