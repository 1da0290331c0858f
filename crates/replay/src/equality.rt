// A stored pair of nodes: whether the original was asked, the two nodes, and 1 where they are equal as JSON, for enum and for unique.
ghost use Rattle.std.specs.Prelude.{◌≡◌};
ghost use Rattle.layout.specs.Lent.{tables_of};
ghost use Rattle.replay.specs.Calls.{equal_of, equality_of};

use crate::answer;
use crate::answer::Met;
use layout::Tables;
use number::equal::Equality;

// How many words are stored of a pair, and where the expected ones stand.
const PAIR_WORDS: u32 = 5;

const FOR_ENUM: u32 = 3;

const FOR_UNIQUE: u32 = 4;

// 1 where the nodes are equal, else 0.
fn equal(way: Equality, input: &[u32], at: usize, t: &Tables) -> u32
    ensures { result ≡ equal_of way input.now at (tables_of t.now) }
{
    let first = stored::word(input, at, 1);
    let second = stored::word(input, at, 2);
    json_equality::equal_nodes(way, t, first, second) as u32
}

pub fn run(call: u32, input: &[u32], at: usize, t: &Tables) -> Met
    ensures { result ≡ equality_of input.now at (tables_of t.now) }
{
    let for_enum = equal(Equality::Enum, input, at, t);
    let for_unique = equal(Equality::Unique, input, at, t);
    let wrong = answer::judge(
        call,
        FOR_ENUM,
        stored::word(input, at, FOR_ENUM),
        for_enum,
        0,
    );
    Met {
        wrong: answer::judge(
            call,
            FOR_UNIQUE,
            stored::word(input, at, FOR_UNIQUE),
            for_unique,
            wrong,
        ),
        after: stored::after(at, PAIR_WORDS),
    }
}
