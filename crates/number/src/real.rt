ghost use Rattle.std.specs.Prelude.{◌≡◌};
ghost use Rattle.std.specs.Float.Ieee as Ieee;
ghost use Rattle.std.specs.Float.{binary64};
ghost use Rattle.number.specs.Pattern.{finite_of};

// The f64 of a pattern; every NaN pattern is the one NaN.
pub fn float_of(bits: u64) -> f64
    ensures { result ≡ Ieee.of_bits binary64 bits }
{
    if bits & 0x7fff_ffff_ffff_ffff > 0x7ff0_0000_0000_0000 {
        0.0 / 0.0
    } else {
        f64::from_bits(bits)
    }
}

// Whether a pattern is neither a NaN's nor an infinity's.
pub fn is_finite(bits: u64) -> bool
    ensures { result ≡ finite_of bits }
{
    bits & 0x7fff_ffff_ffff_ffff < 0x7ff0_0000_0000_0000
}
