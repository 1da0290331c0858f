ghost use Rattle.std.specs.Prelude.{◌≡◌};
ghost use Rattle.number.specs.Nearest.{nearest_of};

// The f64 nearest to the i64 whose two's complement is `word`, ties to even: exact halves, the upper one signed, one product, one rounded addition.
pub fn nearest_f64(word: u64) -> f64
    ensures { result ≡ nearest_of word }
{
    let upper = if word < 0x8000_0000_0000_0000 {
        (word >> 32) as f64
    } else {
        -((4294967296 - (word >> 32)) as f64)
    };
    upper * 4294967296.0 + ((word & 0xffff_ffff) as f64)
}
