// The walk along a path's steps.
ghost use Rattle.std.specs.Prelude.{◌≡◌};
ghost use Rattle.layout.specs.Lent.{tables_of};
ghost use Rattle.error.specs.Paths.{step_of};
ghost use Rattle.navigate.specs.Path.{steps_of};
ghost use Rattle.navigate.specs.Walk.{entry_node, key_into, item_into, step_into, wanted_at, navigate_over};

use crate::path;
use layout::{Tables, node};

// The key node of an object's entry k where it is wanted, else its value node.
#[tactic(auto, unfolding(crate::specs::Walk::entry_node))]
fn entry_node(t: &Tables, n: u32, wanted: bool, k: u32) -> u32
    ensures { let T = tables_of t.now in result ≡ entry_node T.nodes T.links n wanted k }
{
    if wanted {
        return lookup::entry_key(t, n, k);
    }
    lookup::entry_value(t, n, k)
}

#[tactic(auto, unfolding(crate::specs::Walk::key_into))]
fn key_into(t: &Tables, n: u32, text: u32, wanted: bool) -> Option<u32>
    ensures { let T = tables_of t.now in
        result ≡ key_into T.pool T.texts T.nodes T.links n text wanted }
{
    if t.node_kind(n) != node::OBJECT {
        return None;
    }
    let k = lookup::last_entry(t, n, text)?;
    Some(entry_node(t, n, wanted, k))
}

#[tactic(auto, unfolding(crate::specs::Walk::item_into))]
fn item_into(t: &Tables, n: u32, index: u32) -> Option<u32>
    ensures { let T = tables_of t.now in result ≡ item_into T.nodes T.links n index }
{
    if t.node_kind(n) == node::ARRAY && index < t.node_b(n) {
        return Some(lookup::item(t, n, index));
    }
    None
}

#[tactic(auto, unfolding(crate::specs::Walk::step_into))]
fn step_into(t: &Tables, n: u32, tag: u32, word: u32, wanted: bool) -> Option<u32>
    ensures { let T = tables_of t.now in
        result ≡ step_into T.pool T.texts T.nodes T.links n (step_of tag word) wanted }
{
    if tag == 0 {
        return key_into(t, n, word, wanted);
    }
    item_into(t, n, word)
}

// The key is wanted of the last step only.
#[tactic(auto, unfolding(crate::specs::Walk::wanted_at))]
fn wanted_at(wanted: bool, left: usize) -> bool
    ensures { result ≡ wanted_at wanted left }
{
    left == 1 && wanted
}

// The node at a path's end.
#[tactic(auto, unfolding(crate::specs::Path::step_count))]
pub fn follow(t: &Tables, node: u32, path: &[u32], wanted: bool) -> Option<u32>
    ensures { let T = tables_of t.now in
        result ≡ navigate_over T.pool T.texts T.nodes T.links wanted node (steps_of path.now) }
{
    let n = path::step_count(path);
    let mut at = node;
    for i in 0..n {
        let key = wanted_at(wanted, n - i);
        let (tag, word) = (path[i * path::STEP_WORDS], path[i * path::STEP_WORDS + 1]);
        at = step_into(t, at, tag, word, key)?;
    }
    Some(at)
}
