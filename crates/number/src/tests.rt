ghost use Rattle.std.specs.Prelude.{◌≡◌};
ghost use Rattle.number.specs.Check.{check_number_of};

use crate::multiple;

// The one bound that a value breaks: first the value, then the bound.
#[derive(Clone, Copy)]
pub enum Range {
    BelowMinimum(f64, f64),
    AboveMaximum(f64, f64),
    AtOrBelowExclusiveMinimum(f64, f64),
    AtOrAboveExclusiveMaximum(f64, f64),
}

// The test of a number schema that fails; NotMultiple has first the value, then the multiple.
#[derive(Clone, Copy)]
pub enum NumberFault {
    OutOfRange(Range),
    NotMultiple(f64, f64),
}

// The bounds of a number schema; an absent one is NaN, which passes every test.
#[derive(Clone, Copy)]
pub struct Bounds {
    pub minimum: f64,
    pub maximum: f64,
    pub exclusive_minimum: f64,
    pub exclusive_maximum: f64,
    pub multiple_of: f64,
}

// The first of the five tests that fails, in order.
pub fn check_number(value: f64, bounds: Bounds) -> Result<(), NumberFault>
    ensures { result ≡ check_number_of value bounds }
{
    if value < bounds.minimum {
        return Err(NumberFault::OutOfRange(Range::BelowMinimum(value, bounds.minimum)));
    }
    if value > bounds.maximum {
        return Err(NumberFault::OutOfRange(Range::AboveMaximum(value, bounds.maximum)));
    }
    if value <= bounds.exclusive_minimum {
        return Err(NumberFault::OutOfRange(Range::AtOrBelowExclusiveMinimum(
            value,
            bounds.exclusive_minimum,
        )));
    }
    if value >= bounds.exclusive_maximum {
        return Err(NumberFault::OutOfRange(Range::AtOrAboveExclusiveMaximum(
            value,
            bounds.exclusive_maximum,
        )));
    }
    if multiple::not_multiple(value, bounds.multiple_of) {
        return Err(NumberFault::NotMultiple(value, bounds.multiple_of));
    }
    Ok(())
}
