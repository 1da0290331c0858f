// What a node stands for as a JSON value, without what an array or an object holds.
ghost use Rattle.std.specs.Prelude.{◌≡◌, eqb};
ghost use Rattle.layout.specs.Lent.{tables_of};
ghost use Rattle.text.specs.Text.{text_of, same_bytes};
ghost use Rattle.number.specs.Equal.{equal_numbers_of};
ghost use Rattle.json_equality.specs.Json.{on_null, on_boolean, on_number, on_string};
ghost use Rattle.json_equality.specs.Value.{real_shape, parsed_shape, shape_of};
ghost use Rattle.json_equality.specs.Walk.{leaf_of, equal_leaf_of};

use layout::{Tables, node, words};
use number::equal::{Equality, Number};
use number::{equal, real};
use text::Texts;

#[derive(Clone, Copy)]
pub enum Shape {
    Null,
    Boolean(u32),
    Numeric(Number),
    Text(u32),
    Array,
    Object,
}

// A real that is not finite is null.
fn real_shape(bits: u64) -> Shape
    ensures { result ≡ real_shape bits }
{
    if real::is_finite(bits) {
        return Shape::Numeric(Number::Real(bits));
    }
    Shape::Null
}

// A real by the place of its parsed bits; an unparsed one is null.
fn parsed_shape(t: &Tables, place: u32) -> Shape
    ensures { let T = tables_of t.now in result ≡ parsed_shape T.numbers place }
{
    if place == words::NONE {
        return Shape::Null;
    }
    real_shape(t.number(place))
}

pub fn shape_of(t: &Tables, n: u32) -> Shape
    ensures { let T = tables_of t.now in result ≡ shape_of T.nodes T.numbers n }
{
    let a = t.node_a(n);
    match t.node_kind(n) {
        node::BOOLEAN => Shape::Boolean(a),
        node::INTEGER => Shape::Numeric(Number::Integer(t.number(a))),
        node::REAL => parsed_shape(t, t.node_b(n)),
        node::STRING => Shape::Text(a),
        node::ARRAY => Shape::Array,
        node::OBJECT => Shape::Object,
        _ => Shape::Null,
    }
}

fn is_null(texts: &Texts, y: Shape) -> bool
    ensures { result ≡ on_null (leaf_of texts.now.pool.now texts.now.records.now y) }
{
    matches!(y, Shape::Null)
}

fn is_boolean(texts: &Texts, a: u32, y: Shape) -> bool
    ensures { result ≡ on_boolean (eqb a) (leaf_of texts.now.pool.now texts.now.records.now y) }
{
    matches!(y, Shape::Boolean(b) if a == b)
}

fn is_number(way: Equality, texts: &Texts, v: Number, y: Shape) -> bool
    ensures { result ≡ on_number (equal_numbers_of way v)
        (leaf_of texts.now.pool.now texts.now.records.now y) }
{
    match y {
        Shape::Numeric(w) => equal::equal_numbers(way, v, w),
        _ => false,
    }
}

fn is_text(texts: &Texts, t: u32, y: Shape) -> bool
    ensures { result ≡ on_string (same_bytes (text_of texts.now.pool.now texts.now.records.now t))
        (leaf_of texts.now.pool.now texts.now.records.now y) }
{
    match y {
        Shape::Text(u) => {
            let bytes = texts.text(u);
            lookup::is_text(texts, t, u, bytes)
        }
        _ => false,
    }
}

// Whether a value that is neither array nor object equals another.
pub fn equal_leaf(way: Equality, texts: &Texts, x: Shape, y: Shape) -> bool
    ensures { result ≡ equal_leaf_of way texts.now.pool.now texts.now.records.now x
        (leaf_of texts.now.pool.now texts.now.records.now y) }
{
    match x {
        Shape::Null => is_null(texts, y),
        Shape::Boolean(a) => is_boolean(texts, a, y),
        Shape::Numeric(v) => is_number(way, texts, v, y),
        Shape::Text(t) => is_text(texts, t, y),
        Shape::Array => false,
        Shape::Object => false,
    }
}
