// An answer against the 18 words that are stored of it.
ghost use Rattle.std.specs.Prelude.{◌≡◌};
ghost use Rattle.replay.specs.Answer.{
  pattern_of,
  low_of,
  high_of,
  words_of,
  pattern_at,
  used_at,
  expected_of,
  judged_of,
  compared_of,
};

use checker::flat::Flat;
use stored::report::print;

const OUT: i32 = 1;

pub const ANSWER_WORDS: u32 = 18;

// Where the two f64 stand, each as low and high word.
const VALUE: u32 = 14;

const BOUND: u32 = 16;

// What became of a call: 1 where the answer is another than the stored one, and the place behind what is stored of it.
#[derive(Clone, Copy)]
pub struct Met {
    pub wrong: u32,
    pub after: usize,
}

// An f64's pattern, the same one for every NaN.
fn pattern(x: f64) -> u64
    ensures { result ≡ pattern_of x }
{
    if x == x {
        return f64::to_bits(x);
    }
    0x7ff8_0000_0000_0000
}

fn low(x: u64) -> u32
    ensures { result ≡ low_of x }
{
    (x % 4294967296) as u32
}

fn high(x: u64) -> u32
    ensures { result ≡ high_of x }
{
    (x / 4294967296) as u32
}

fn words(flat: Flat) -> [u32; 18]
    ensures { result ≡ words_of flat }
{
    let value = pattern(flat.value);
    let bound = pattern(flat.bound);
    [
        flat.number,
        flat.table,
        flat.place,
        flat.node,
        flat.schema,
        flat.hint,
        flat.detail,
        flat.a,
        flat.b,
        flat.steps,
        flat.kinds,
        flat.notes,
        flat.schemas,
        flat.links,
        low(value),
        high(value),
        low(bound),
        high(bound),
    ]
}

fn stored_pattern(input: &[u32], at: usize) -> u64
    ensures { result ≡ pattern_at input.now at }
{
    pattern(number::real::float_of(stored::number(input, at)))
}

// Only a compile has used counts.
fn used(input: &[u32], at: usize, field: u32, compiled: bool) -> u32
    ensures { result ≡ used_at input.now at compiled field }
{
    if compiled {
        return stored::word(input, at, field);
    }
    error::NONE
}

// The word that a field has to have.
fn expected(input: &[u32], at: usize, field: u32, compiled: bool) -> u32
    ensures { result ≡ expected_of input.now at compiled field }
{
    match field {
        11 | 12 | 13 => used(input, at, field, compiled),
        14 => low(stored_pattern(input, stored::after(at, VALUE))),
        15 => high(stored_pattern(input, stored::after(at, VALUE))),
        16 => low(stored_pattern(input, stored::after(at, BOUND))),
        17 => high(stored_pattern(input, stored::after(at, BOUND))),
        _ => stored::word(input, at, field),
    }
}

// 1 where this field or one before is another than expected; each such field is printed.
pub fn judge(call: u32, field: u32, expected: u32, found: u32, wrong: u32) -> u32
    ensures { result ≡ judged_of expected found wrong }
{
    if expected == found {
        return wrong;
    }
    io::write_all(OUT, b"call ");
    print(call, b": field ");
    print(field, b" expected ");
    print(expected, b" found ");
    print(found, b"\n");
    1
}

pub fn compare(call: u32, input: &[u32], at: usize, flat: Flat, compiled: bool) -> u32
    ensures { result ≡ compared_of input.now at flat compiled }
{
    let found = words(flat);
    let mut wrong: u32 = 0;
    for k in 0..ANSWER_WORDS {
        let e = expected(input, at, k, compiled);
        wrong = judge(call, k, e, found[k as usize], wrong);
    }
    wrong
}
