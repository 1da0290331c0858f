// What accepts a node at once, a schema without parts or an object of such: nothing is left to visit, and no path to write.
ghost use Rattle.std.specs.Prelude.{◌≡◌, eqb, ltb};
ghost use Rattle.text.specs.Choice.{both, either};
ghost use Rattle.layout.specs.Lent.{tables_of};
ghost use Rattle.judge.specs.Judge.{keys_verdict};
ghost use Rattle.validator.specs.Validate.{visit_of};
ghost use Rattle.validator.specs.Met.{Accepts, AcceptsAll, entry_place, entries_in, object_whole};

use error::Mode;
use layout::{Tables, kind, node};

// A schema without parts, at a glance.
fn accepts_leaf(mode: Mode, t: &Tables, level: u32, node: u32, s: u32) -> bool
    ensures { Accepts result (visit_of (tables_of t.now) mode level node s) }
{
    if level == 0 {
        return false;
    }
    match t.schema_kind(s) {
        kind::BOOLEAN => judge::validate_boolean(t, node).is_ok(),
        kind::NUMBER => glance::leaf::number_passes(t, node, s),
        kind::STRING => glance::leaf::string_passes(mode, t, node, s),
        kind::ENUM => glance::leaf::enum_passes(mode, t, node, s),
        _ => false,
    }
}

// The place among the properties of entry k's key, where that is a string.
fn entry_place(t: &Tables, n: u32, s: u32, k: u32) -> Option<u32>
    ensures { let T = tables_of t.now in
        result ≡ entry_place T.pool T.texts T.nodes T.schemas T.links n s k }
{
    let key = lookup::entry_key(t, n, k);
    if t.node_kind(key) != node::STRING {
        return None;
    }
    let first = t.properties_first(s);
    let count = t.properties_count(s);
    lookup::property_place(t, first, count, t.node_a(key))
}

// Whether the places found so far still rise; the first does.
fn rises(ordered: bool, k: u32, last: u32, place: u32) -> bool
    ensures { result ≡ both ordered (either (eqb k 0) (ltb last place)) }
{
    ordered && (k == 0 || last < place)
}

// The entries of an object, each a property without parts; where their places rise no key stands twice.
fn accepts_entries(mode: Mode, t: &Tables, below: u32, node: u32, s: u32) -> bool
    ensures { let T = tables_of t.now in
        AcceptsAll result (keys_verdict T.pool T.texts T.nodes T.links node)
        (entries_in T mode below node s) }
{
    let first = t.properties_first(s);
    let count = t.node_b(node);
    let mut ordered = true;
    let mut last: u32 = 0;
    for k in 0..count {
        let Some(place) = entry_place(t, node, s, k) else {
            return false;
        };
        let part = t.pair_value(first, place);
        let value = lookup::entry_value(t, node, k);
        if !accepts_leaf(mode, t, below, value, part) {
            return false;
        }
        ordered = rises(ordered, k, last, place);
        last = place;
    }
    ordered || objects::check_keys(t, node).is_ok()
}

// An object whose entries are properties without parts, at a glance.
fn accepts_object(mode: Mode, t: &Tables, below: u32, node: u32, s: u32) -> bool
    ensures { Accepts result (object_whole (tables_of t.now) mode below node s) }
{
    glance::object::object_passes(t, node, s) && accepts_entries(mode, t, below, node, s)
}

// Whether the visit is one of these, and accepts; false says nothing.
pub fn accepts(mode: Mode, t: &Tables, level: u32, node: u32, s: u32) -> bool
    ensures { Accepts result (visit_of (tables_of t.now) mode level node s) }
{
    if level == 0 {
        return false;
    }
    match t.schema_kind(s) {
        kind::BOOLEAN => judge::validate_boolean(t, node).is_ok(),
        kind::NUMBER => judge::numeric::validate_number(t, node, s).is_ok(),
        kind::STRING => judge::string::validate_string(mode, t, node, s).is_ok(),
        kind::ENUM => listed::validate_enum(mode, t, node, s).is_ok(),
        kind::OBJECT => accepts_object(mode, t, level - 1, node, s),
        _ => false,
    }
}
