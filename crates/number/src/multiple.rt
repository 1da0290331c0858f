// Whether a number is no multiple of another, by whole numbers alone: no call of fmod.

ghost use Rattle.std.specs.Prelude.{◌≡◌, ◌*◌, ◌%◌, ◌^◌, ◌<◌, from_bits};
ghost use Rattle.std.specs.Float.{binary64};
ghost use Rattle.number.specs.Check.{not_multiple_of};
ghost use Rattle.number.specs.Magnitude.{significand_of, power_of, above_step};

// All bits but the sign.
const MAGNITUDE: u64 = 0x7fff_ffff_ffff_ffff;

// An infinity's magnitude: those of finite numbers lie below it, and those of NaNs above.
const INFINITE: u64 = 0x7ff0_0000_0000_0000;

// A finite number is significand * 2^power units of 2^-1074, the smallest value.
fn significand(magnitude: u64) -> u64
    ensures { result ≡ significand_of magnitude }
{
    if magnitude >> 52 == 0 {
        magnitude
    } else {
        (magnitude & 0x000f_ffff_ffff_ffff) + 0x0010_0000_0000_0000
    }
}

fn power(magnitude: u64) -> u64
    ensures { result ≡ power_of magnitude }
{
    (magnitude >> 52).saturating_sub(1)
}

// value * 2^doublings % multiple. A remainder of 0 stays 0.
fn doubled_rest(value: u64, doublings: u64, multiple: u64) -> u64
    requires not_zero { 0 < multiple }
    requires few_digits { multiple < 2 ^ 53 }
    ensures { result ≡ value * 2 ^ doublings % multiple }
{
    let mut rest = value % multiple;
    for turn in 0..doublings {
        if rest == 0 {
            return 0;
        }
        let twice = rest * 2;
        rest = if twice < multiple {
            twice
        } else {
            twice - multiple
        };
    }
    rest
}

// Whether rest * 2^power units are more than 2^-52, that is, than 2^1022 units.
fn is_above(rest: u64, power: u64) -> bool
    requires { rest < 2 ^ 53 }
    ensures { result ≡ above_step (rest * 2 ^ power) }
{
    if power > 1022 {
        rest > 0
    } else if power < 970 {
        false
    } else {
        rest > 1 << (1022 - power)
    }
}

// abs(value % multiple) > 2^-52, by the patterns of the two floats: fmod's remainder is exact, so whole numbers find it.
// Where the divisor has the larger power it is the larger number, and the dividend is left; so too at an infinite divisor.
pub fn not_multiple_bits(value: u64, multiple: u64) -> bool
    ensures { result ≡ not_multiple_of (from_bits binary64 value) (from_bits binary64 multiple) }
{
    let dividend = value & MAGNITUDE;
    let divisor = multiple & MAGNITUDE;
    if dividend >= INFINITE {
        return false;
    }
    if divisor > INFINITE {
        return false;
    }
    if divisor == 0 {
        return false;
    }
    let rest = significand(dividend);
    let high = power(dividend);
    let low = power(divisor);
    if high < low {
        is_above(rest, high)
    } else {
        is_above(doubled_rest(rest, high - low, significand(divisor)), low)
    }
}

// The same of two floats. A NaN has no pattern of its own, and no remainder.
pub fn not_multiple(value: f64, multiple: f64) -> bool
    ensures { result ≡ not_multiple_of value multiple }
{
    if value.is_nan() {
        return false;
    }
    if multiple.is_nan() {
        return false;
    }
    not_multiple_bits(value.to_bits(), multiple.to_bits())
}
