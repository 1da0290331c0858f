// The check of a path: step pairs, 0 with a text or 1 with an index.
ghost use Rattle.std.specs.Prelude.{◌≡◌};
ghost use Rattle.navigate.specs.Path.{step_count, path_size, words_ok, first_bad_step, path_fault};

use error::Failure;
use layout::words::NONE;

// The path counts as a table of its own.
const PATH_TABLE: u32 = 9;

// Words per step: its tag, and a text or an index.
pub const STEP_WORDS: usize = 2;

// As many steps have no number that fits a word.
const TOO_MANY_STEPS: usize = 4294967295;

pub fn step_count(path: &[u32]) -> usize
    ensures { result ≡ step_count path.now }
{
    path.len() / STEP_WORDS
}

// Whether a path is neither ragged nor longer than a step's number can say.
#[tactic(auto, unfolding(crate::specs::Path::path_size))]
fn path_size(path: &[u32]) -> bool
    ensures { result ≡ path_size path.now }
{
    path.len() % STEP_WORDS == 0 && step_count(path) < TOO_MANY_STEPS
}

// Whether a step is 0 with one of the texts, or 1 with an index.
#[tactic(auto, unfolding(crate::specs::Path::words_ok))]
fn words_ok(count: usize, tag: u32, word: u32) -> bool
    ensures { result ≡ words_ok count tag word }
{
    match tag {
        0 => (word as usize) < count,
        _ => tag == 1,
    }
}

// The first bad step, or how many there are, as its definition counts on; `check_path` makes a failure of it.
fn first_bad_step(count: usize, path: &[u32]) -> usize
    ensures { result ≡ first_bad_step count path.now }
{
    let n = step_count(path);
    for i in 0..n {
        if !words_ok(count, path[i * STEP_WORDS], path[i * STEP_WORDS + 1]) {
            return i;
        }
    }
    n
}

// The fault of a path, where there are that many texts.
pub fn check_path(count: usize, path: &[u32]) -> Result<(), Failure>
    ensures { result ≡ path_fault count path.now }
{
    if !path_size(path) {
        return Err(Failure::BadTable {
            table: PATH_TABLE,
            record: NONE,
        });
    }
    let bad = first_bad_step(count, path);
    if bad < step_count(path) {
        return Err(Failure::BadTable {
            table: PATH_TABLE,
            record: bad as u32,
        });
    }
    Ok(())
}
