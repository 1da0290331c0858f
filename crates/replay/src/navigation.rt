// A stored navigation: whether the original was asked, the node, whether the key is wanted, the path, and the answer.
ghost use Rattle.std.specs.Prelude.{◌≡◌};
ghost use Rattle.layout.specs.Lent.{tables_of};
ghost use Rattle.replay.specs.Calls.{navigated_of, navigation_of};

use crate::answer;
use crate::answer::Met;
use checker::flat::Flat;
use layout::Tables;

fn find(input: &[u32], at: usize, path: &[u32], t: &Tables) -> Flat
    ensures { result ≡ navigated_of input.now at path.now (tables_of t.now) }
{
    let node = stored::word(input, at, 1);
    let key_wanted = stored::word(input, at, 2) == 1;
    checker::qy_navigate(t, node, path, key_wanted)
}

pub fn run(call: u32, input: &[u32], at: usize, t: &Tables) -> Met
    ensures { result ≡ navigation_of input.now at (tables_of t.now) }
{
    let path_at = stored::after(at, 4);
    let answer_at = stored::after(path_at, stored::word(input, at, 3));
    let found = find(input, at, stored::part(input, path_at, answer_at), t);
    Met {
        wrong: answer::compare(call, input, answer_at, found, false),
        after: stored::after(answer_at, answer::ANSWER_WORDS),
    }
}
