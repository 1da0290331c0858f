// Path navigation: from a node, by keys and indices, to a node.
#![tactic(auto)]

pub mod path;
pub mod walk;

ghost use Rattle.std.specs.Prelude.{◌≡◌};
ghost use Rattle.layout.specs.Lent.{tables_of};
ghost use Rattle.navigate.specs.Navigate.{answered, navigate_of};

use error::{Answer, Failure};
use layout::Tables;
use tables::check;

// The node that is found, or why there is none.
fn node_at(t: &Tables, node: u32, path: &[u32], key_wanted: bool) -> Result<u32, Failure>
    ensures { answered result ≡ navigate_of (tables_of t.now) node path.now key_wanted }
{
    check::check_tables(t)?;
    path::check_path(t.texts.count(), path)?;
    if t.node_count() <= (node as usize) {
        return Err(Failure::WrongNumber);
    }
    walk::follow(t, node, path, key_wanted).ok_or(Failure::NotFound)
}

// The node at a path's end, with its key node where that is wanted and the last step is a key.
pub fn navigate(t: &Tables, node: u32, path: &[u32], key_wanted: bool) -> Answer
    ensures { result ≡ navigate_of (tables_of t.now) node path.now key_wanted }
{
    match node_at(t, node, path, key_wanted) {
        Ok(n) => error::found(n),
        Err(failure) => error::failed(failure),
    }
}
