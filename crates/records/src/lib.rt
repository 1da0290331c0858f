// When a record of tables 1, 2, 3, 5 and 6 is good.
#![tactic(auto)]

ghost use Rattle.std.specs.Prelude.{◌≡◌};
ghost use Rattle.layout.specs.Lent.{tables_of};
ghost use Rattle.ascii.specs.Ascii.{ascii_of};
ghost use Rattle.records.specs.Records.{
  text_ok,
  plain_node_ok,
  boolean_node_ok,
  place_node_ok,
  real_node_ok,
  list_node_ok,
  node_rule,
  node_ok,
  note_ok,
  entry_ok,
  pattern_ok,
};

use layout::words::NONE;
use layout::{Tables, node};
use lists::{list_below, optional_below};
use text::Texts;

// How many records there are to name.
#[derive(Clone, Copy)]
pub struct Counts {
    pub texts: usize,
    pub nodes: usize,
    pub notes: usize,
    pub schemas: usize,
    pub numbers: usize,
}

// Where the whole pool is known to be plain ASCII a text only has to lie in it.
pub fn text_ok(texts: &Texts, plain: bool, i: u32) -> bool
    requires { plain ≡ ascii_of texts.now.pool.now }
    ensures { result ≡ text_ok texts.now.pool.now texts.now.records.now i }
{
    texts.fits(i as usize) && (plain || text::utf8::is_utf8(texts.text(i)))
}

#[tactic(auto, unfolding(crate::specs::Records::plain_node_ok))]
fn plain_node_ok(a: u32, b: u32, c: u32) -> bool
    ensures { result ≡ plain_node_ok a b c }
{
    a == 0 && b == 0 && c == 0
}

#[tactic(auto, unfolding(crate::specs::Records::boolean_node_ok))]
fn boolean_node_ok(a: u32, b: u32, c: u32) -> bool
    ensures { result ≡ boolean_node_ok a b c }
{
    a <= 1 && b == 0 && c == 0
}

#[tactic(auto, unfolding(crate::specs::Records::place_node_ok))]
fn place_node_ok(count: usize, a: u32, b: u32, c: u32) -> bool
    ensures { result ≡ place_node_ok count a b c }
{
    (a as usize) < count && b == 0 && c == 0
}

#[tactic(auto, unfolding(crate::specs::Records::real_node_ok))]
fn real_node_ok(count: usize, a: u32, b: u32, c: u32) -> bool
    ensures { result ≡ real_node_ok count a b c }
{
    optional_below(a, count) && optional_below(b, count) && c == 0
}

#[tactic(auto, unfolding(crate::specs::Records::list_node_ok))]
fn list_node_ok(t: &Tables, n: u32, first: u32, count: usize, c: u32) -> bool
    ensures { let T = tables_of t.now in result ≡ list_node_ok T.links n first count c }
{
    list_below(t, first, count, n as usize) && c == 0
}

#[tactic(auto, unfolding(crate::specs::Records::node_rule))]
fn node_rule(z: Counts, t: &Tables, n: u32, kind: u32, a: u32, b: u32, c: u32) -> bool
    ensures { let T = tables_of t.now in result ≡ node_rule z T.links n kind a b c }
{
    match kind {
        node::NULL | node::ALIAS | node::BAD_VALUE => plain_node_ok(a, b, c),
        node::BOOLEAN => boolean_node_ok(a, b, c),
        node::INTEGER => place_node_ok(z.numbers, a, b, c),
        node::REAL => real_node_ok(z.numbers, a, b, c),
        node::STRING => place_node_ok(z.texts, a, b, c),
        node::ARRAY => list_node_ok(t, n, a, b as usize, c),
        node::OBJECT => list_node_ok(t, n, a, (b as usize) * 2, c),
        _ => false,
    }
}

#[tactic(auto, unfolding(crate::specs::Records::node_ok))]
pub fn node_ok(z: Counts, t: &Tables, n: u32) -> bool
    ensures { let T = tables_of t.now in result ≡ node_ok z T.links T.nodes n }
{
    node_rule(
        z,
        t,
        n,
        t.node_kind(n),
        t.node_a(n),
        t.node_b(n),
        t.node_c(n),
    )
}

#[tactic(auto, unfolding(crate::specs::Records::note_ok))]
pub fn note_ok(t: &Tables, n: u32) -> bool
    ensures { let T = tables_of t.now in result ≡ note_ok T.notes n }
{
    if t.note_tags(n) == NONE {
        t.note_case_detection(n) == 0
    } else {
        t.note_case_detection(n) <= 1
    }
}

#[tactic(auto, unfolding(crate::specs::Records::entry_ok))]
pub fn entry_ok(z: Counts, t: &Tables, i: u32) -> bool
    ensures { let T = tables_of t.now in result ≡ entry_ok z T.registry i }
{
    text::wide(t.entry_text(i as usize)) < z.texts
        && text::wide(t.entry_schema(i as usize)) < z.schemas
}

#[tactic(auto, unfolding(crate::specs::Records::pattern_ok))]
pub fn pattern_ok(z: Counts, t: &Tables, i: u32) -> bool
    ensures { let T = tables_of t.now in result ≡ pattern_ok z T.patterns i }
{
    text::wide(t.pattern_text(i as usize)) < z.texts
        && text::wide(t.subject_text(i as usize)) < z.texts
        && t.pattern_answer(i as usize) <= 2
}
