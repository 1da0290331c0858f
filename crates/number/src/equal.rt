ghost use Rattle.std.specs.Prelude.{◌≡◌};
ghost use Rattle.number.specs.Equal.{equal_numbers_of, mixed_of, equal_reals_of};

use crate::{integer, real};

// How numbers compare: in source mode for enum and for unique, in standard mode for both.
#[derive(Clone, Copy)]
pub enum Equality {
    Enum,
    Unique,
    Standard,
}

// A number of a document: an i64's word, or an f64's pattern.
#[derive(Clone, Copy)]
pub enum Number {
    Integer(u64),
    Real(u64),
}

// An integer against a real: equal only in standard mode, by the nearest float.
#[tactic(auto, unfolding(crate::specs::Equal::mixed_of))]
fn equal_mixed(way: Equality, word: u64, bits: u64) -> bool
    ensures { result ≡ mixed_of way word bits }
{
    match way {
        Equality::Standard => integer::nearest_f64(word) == real::float_of(bits),
        Equality::Enum | Equality::Unique => false,
    }
}

// A real against a real: for unique, equal numbers of different signs, 0.0 and -0.0, differ.
#[tactic(auto, unfolding(crate::specs::Equal::equal_reals_of))]
fn equal_reals(way: Equality, p: u64, q: u64) -> bool
    ensures { result ≡ equal_reals_of way p q }
{
    let equal = real::float_of(p) == real::float_of(q);
    match way {
        Equality::Unique => equal && p >> 63 == q >> 63,
        Equality::Enum | Equality::Standard => equal,
    }
}

// Whether two numbers are equal in the given way.
#[tactic(auto, unfolding(crate::specs::Equal::equal_numbers_of))]
pub fn equal_numbers(way: Equality, a: Number, b: Number) -> bool
    ensures { result ≡ equal_numbers_of way a b }
{
    match (a, b) {
        (Number::Integer(x), Number::Integer(y)) => x == y,
        (Number::Integer(x), Number::Real(q)) => equal_mixed(way, x, q),
        (Number::Real(p), Number::Integer(y)) => equal_mixed(way, y, p),
        (Number::Real(p), Number::Real(q)) => equal_reals(way, p, q),
    }
}
