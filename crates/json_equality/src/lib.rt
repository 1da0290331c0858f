// JSON equality of nodes, for enum and for unique, in both modes.
#![tactic(auto)]

mod keys;
mod shape;

ghost use Rattle.std.specs.Prelude.{◌≡◌};
ghost use Rattle.layout.specs.Lent.{tables_of};
ghost use Rattle.json_equality.specs.Value.{equal_nodes_of};
ghost use Rattle.json_equality.specs.Walk.{equal_at, equal_arrays_of, equal_objects_of};

use layout::{Tables, node};
use number::equal::Equality;

// Whether the array a equals the node b.
#[cycle(equal_arrays_equal_at_equal_objects)]
fn equal_arrays(way: Equality, t: &Tables, depth: usize, a: u32, b: u32) -> bool
    ensures { let T = tables_of t.now in
        result ≡ equal_arrays_of (equal_at way T.pool T.texts T.nodes T.links T.numbers depth)
        T.nodes T.links a b }
{
    if t.node_kind(b) != node::ARRAY {
        return false;
    }
    let count = t.node_b(a);
    if t.node_b(b) != count {
        return false;
    }
    for i in 0..count {
        let x = lookup::item(t, a, i);
        let y = lookup::item(t, b, i);
        if !equal_at(way, t, depth, x, y) {
            return false;
        }
    }
    true
}

// Whether the object a equals the node b.
#[cycle(equal_arrays_equal_at_equal_objects)]
fn equal_objects(way: Equality, t: &Tables, depth: usize, a: u32, b: u32) -> bool
    ensures { let T = tables_of t.now in
        result ≡ equal_objects_of (equal_at way T.pool T.texts T.nodes T.links T.numbers depth)
        T.pool T.texts T.nodes T.links a b }
{
    if t.node_kind(b) != node::OBJECT {
        return false;
    }
    if !keys::keys_in(t, a, b) {
        return false;
    }
    for k in 0..t.node_b(a) {
        let Some(y) = keys::counterpart(t, a, b, k) else {
            return false;
        };
        let x = lookup::entry_value(t, a, k);
        if !equal_at(way, t, depth, x, y) {
            return false;
        }
    }
    true
}

// Whether the values of two nodes are equal as deep as depth. A node equals itself at once.
#[cycle(equal_arrays_equal_at_equal_objects)]
fn equal_at(way: Equality, t: &Tables, depth: usize, a: u32, b: u32) -> bool
    ensures { let T = tables_of t.now in
        result ≡ equal_at way T.pool T.texts T.nodes T.links T.numbers depth a b }
{
    if a == b {
        return true;
    }
    if depth == 0 {
        return true;
    }
    match t.node_kind(a) {
        node::ARRAY => equal_arrays(way, t, depth - 1, a, b),
        node::OBJECT => equal_objects(way, t, depth - 1, a, b),
        _ => shape::equal_leaf(way, &t.texts, shape::shape_of(t, a), shape::shape_of(t, b)),
    }
}

// Whether two nodes stand for equal JSON values.
pub fn equal_nodes(way: Equality, t: &Tables, a: u32, b: u32) -> bool
    ensures { let T = tables_of t.now in
        result ≡ equal_nodes_of way T.pool T.texts T.nodes T.links T.numbers a b }
{
    let depth = t.node_count() + 1;
    equal_at(way, t, depth, a, b)
}
