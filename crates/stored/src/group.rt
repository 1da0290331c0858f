// The tables of a group of a stored file, unpacked.
ghost use Rattle.std.specs.Prelude.{◌≡◌, ℕ};
ghost use Rattle.stored.specs.Stored.{place_after};
ghost use Rattle.stored.specs.Group.{
  octet_of,
  words_for,
  head_at,
  slice_unpacked,
  tables_at,
  unpacked,
  unpacked_of,
};

use crate::{after, number, pair, put, word};

// A slice as stored: how long it is lent, how many elements are stored, and the element that fills the rest.
#[derive(Clone, Copy)]
struct Extent {
    length: u32,
    kept: u32,
    fill: u32,
}

const HEAD_WORDS: u32 = 3;

// The nine heads; the last one starts at LAST_HEAD.
const HEADS_WORDS: u32 = 27;

const LAST_HEAD: u32 = 24;

// Tables 1 to 7 stand one after the other in one buffer: table k ends at ends[k], where the next one starts.
#[derive(Clone, Copy)]
struct Tables {
    ends: [usize; 8],
    after: usize,
}

#[derive(Clone, Copy)]
pub struct Group {
    pub ends: [usize; 8],
    pub bytes: usize,
    pub numbers: usize,
    pub after: usize,
}

fn octet(word: u32, k: u32) -> u8
    ensures { result ≡ octet_of word k }
{
    let [first, second, third, last] = word.to_le_bytes();
    match k {
        0 => first,
        1 => second,
        2 => third,
        _ => last,
    }
}

#[tactic(auto, unfolding(crate::specs::Group::words_for))]
fn words_for(bytes: u32) -> u32
    ensures { result ≡ words_for bytes }
{
    bytes.div_ceil(4)
}

fn head(input: &[u32], at: usize) -> Extent
    ensures { result ≡ head_at input.now at }
{
    Extent {
        length: word(input, at, 0),
        kept: word(input, at, 1),
        fill: word(input, at, 2),
    }
}

// Stores a slice's elements from a place on: the stored ones, and the one that fills the rest.
fn unpack_slice<T: Copy, F: Fn(u32) -> T>(
    head: Extent,
    start: usize,
    into: &mut [T],
    fill: T,
    stored: F,
)
    requires { F.IsAlwaysCallable stored }
    ensures { (f : ℕ → T) → ((i : ℕ) (element : T) → F.post stored i element → element ≡ f i) →
        into.new ≡ slice_unpacked head f fill (place_after start) into.old }
{
    for i in 0..head.length {
        let element = if i < head.kept { stored(i) } else { fill };
        put(into, after(start, i), element);
    }
}

// Tables 1 to 7, from their heads and from where their words start.
fn unpack_tables(input: &[u32], heads: usize, from: usize, words: &mut [u32]) -> Tables
    ensures ends { result.ends ≡ (tables_at input.now heads from words.old).ends }
    ensures after { result.after ≡ (tables_at input.now heads from words.old).at }
    ensures words { words.new ≡ (tables_at input.now heads from words.old).words }
{
    let mut ends = [0usize; 8];
    let mut head_at = heads;
    let mut at = from;
    let mut end: usize = 0;
    for k in 0..7 {
        let h = head(input, head_at);
        unpack_slice(h, end, words, h.fill, |i| word(input, at, i));
        end = after(end, h.length);
        ends[k + 1] = end;
        at = after(at, h.kept);
        head_at = after(head_at, HEAD_WORDS);
    }
    Tables { ends, after: at }
}

// The group at a place: its tables go into the three buffers.
pub fn unpack(
    input: &[u32],
    at: usize,
    words: &mut [u32],
    pool: &mut [u8],
    numbers: &mut [u64],
) -> Group
    ensures { unpacked result words.new pool.new numbers.new ≡ unpacked_of input.now at words.old pool.old numbers.old }
{
    let bytes_head = head(input, at);
    let numbers_head = head(input, after(at, LAST_HEAD));
    let from = after(at, HEADS_WORDS);
    unpack_slice(bytes_head, 0, pool, octet(bytes_head.fill, 0), |i| {
        octet(word(input, from, i / 4), i % 4)
    });
    let tables = unpack_tables(
        input,
        after(at, HEAD_WORDS),
        after(from, words_for(bytes_head.kept)),
        words,
    );
    unpack_slice(numbers_head, 0, numbers, pair(numbers_head.fill, 0), |i| {
        number(input, after(after(tables.after, i), i))
    });
    let ends = tables.ends;
    Group {
        ends,
        bytes: text::wide(bytes_head.length),
        numbers: text::wide(numbers_head.length),
        after: after(after(tables.after, numbers_head.kept), numbers_head.kept),
    }
}
