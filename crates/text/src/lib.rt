// Texts: parts of a lent pool of bytes, found by number in a table of records. Reads are total: 0 past the end.
#![tactic(auto)]

pub mod utf8;

ghost use Rattle.std.specs.Prelude.{◌≡◌, ◌<◌, ◌^◌, length, get_or};
ghost use Rattle.text.specs.Text.{
  text_words,
  fits_in,
  part_of,
  text_count,
  text_word,
  text_start,
  text_length,
  text_fits,
  text_of,
  same_bytes,
  same_text,
};

// An optional word that is absent.
pub const NONE: u32 = 4294967295;

// The words of a text record, and where each of them stands in it.
pub const TEXT_WORDS: usize = 2;

const START: usize = 0;

const LENGTH: usize = 1;

// A word as a place: the cast under a name, which closures and clauses take as a function.
pub fn wide(x: u32) -> usize
    ensures { result ≡ x }
{
    x as usize
}

pub fn word(words: &[u32], i: usize) -> u32
    ensures { result ≡ get_or words.now i 0 }
{
    words.get(i).copied().unwrap_or(0)
}

// The same of a number: one function for both would take the absent element as an argument at each call.
pub fn number_word(words: &[u64], i: usize) -> u64
    ensures { result ≡ get_or words.now i 0 }
{
    words.get(i).copied().unwrap_or(0)
}

// Whether len elements from start lie within whole of them; the sum is not taken, so it cannot wrap.
fn fits(whole: usize, start: usize, len: usize) -> bool
    ensures { result ≡ fits_in whole start len }
{
    start <= whole && len <= whole - start
}

// The len bytes of s from start, or the empty part where they run past the end.
pub fn part(s: &[u8], start: usize, len: usize) -> &[u8]
    ensures { result.now ≡ part_of s.now start len }
{
    if fits(s.len(), start, len) {
        return &s[start..start + len];
    }
    &s[..0]
}

// How many bytes `same` compares at once, before it asks for the rest.
const FRONT: usize = 8;

// Whether two slices hold the same bytes. Names that differ mostly do so early: so many bytes in front are one comparison here, where `==` of
// slices would be a call.
pub fn same(a: &[u8], b: &[u8]) -> bool
    ensures { result ≡ same_bytes a.now b.now }
{
    if a.len() < FRONT || b.len() < FRONT {
        return a == b;
    }
    a.starts_with(&b[..FRONT]) && a[FRONT..] == b[FRONT..]
}

// The texts of a call: the pool of their bytes, and a record of two words for each. A text outlives the records: it is a part of the pool.
#[derive(Clone, Copy)]
pub struct Texts<'p, 'r> {
    pub pool: &'p [u8],
    pub records: &'r [u32],
}

impl<'p> Texts<'p, '_> {
    // How many whole records there are.
    pub fn count(&self) -> usize
        ensures { result ≡ text_count self.now.records.now }
    {
        self.records.len() / TEXT_WORDS
    }

    fn word(&self, n: usize, k: usize) -> usize
        requires { k < text_words }
        ensures value { result ≡ text_word self.now.records.now n k }
        ensures word { result < 2 ^ 32 }
    {
        if n < self.count() {
            return wide(self.records[TEXT_WORDS * n + k]);
        }
        0
    }

    // Where text n starts in the pool.
    pub fn start(&self, n: usize) -> usize
        ensures { result ≡ text_start self.now.records.now n }
    {
        self.word(n, START)
    }

    // How many bytes text n has.
    pub fn length(&self, n: usize) -> usize
        ensures value { result ≡ text_length self.now.records.now n }
        ensures word { result < 2 ^ 32 }
    {
        self.word(n, LENGTH)
    }

    // Whether there is a text n, and its record lies within the pool.
    pub fn fits(&self, n: usize) -> bool
        ensures { result ≡ text_fits self.now.pool.now self.now.records.now n }
    {
        n < self.count() && fits(self.pool.len(), self.start(n), self.length(n))
    }

    // Text n, as that part of the pool itself.
    pub fn text(&self, n: u32) -> &'p [u8]
        ensures bytes { result.now ≡ text_of self.now.pool.now self.now.records.now n }
        ensures short { length result.now < 2 ^ 32 }
    {
        part(self.pool, self.start(n as usize), self.length(n as usize))
    }

    // Whether two texts are the same bytes.
    pub fn same(&self, m: u32, n: u32) -> bool
        ensures { result ≡ same_text self.now.pool.now self.now.records.now m n }
    {
        m == n || same(self.text(m), self.text(n))
    }
}
