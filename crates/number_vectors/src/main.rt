// Vectors of rounding, of the five tests and of equality, as IEEE 754 and the rules give them: this prints what the code answers.
#![tactic(auto)]

ghost use Rattle.std.specs.Prelude.{◌<◌};

use number::equal::{Equality, Number};
use number::tests::{Bounds, NumberFault, Range};

// The pattern of a real, by a letter; any other letter is a NaN, an absent bound.
fn real(letter: u8) -> u64 {
    match letter {
        b'0' => 0x0, // 0
        b'z' => 0x8000000000000000, // -0
        b'1' => 0x3ff0000000000000, // 1
        b'2' => 0x4000000000000000, // 2
        b'3' => 0x4008000000000000, // 3
        b'4' => 0x4010000000000000, // 4
        b'5' => 0x4014000000000000, // 5
        b'6' => 0x4018000000000000, // 6
        b'8' => 0x4020000000000000, // 8
        b'7' => 0x401c000000000000, // 7
        b'q' => 0xc010000000000000, // -4
        b'm' => 0xc01c000000000000, // -7
        b'n' => 0xc020000000000000, // -8
        b'h' => 0x4016000000000000, // 5.5
        b't' => 0x4024000000000000, // 10
        b'T' => 0xc024000000000000, // -10
        b'w' => 0x4028000000000000, // 12
        b'M' => 0x405fc00000000000, // 127
        b'N' => 0x4060000000000000, // 128
        b'a' => 0x4007ffffffffffff, // just below 3
        b'b' => 0x4008000000000001, // just above 3
        b'c' => 0x405fbfffffffffff, // just below 127
        b'd' => 0x405fc00000000001, // just above 127
        b'e' => 0x3cb0000000000000, // 2^-52
        b'f' => 0x3cb0000000000001, // just above 2^-52
        b'g' => 0x3ff0000000000001, // 1 + 2^-52
        b'k' => 0x3ff0000000000002, // 1 + 2^-51
        b'G' => 0xbff0000000000001, // -(1 + 2^-52)
        b'K' => 0xbff0000000000002, // -(1 + 2^-51)
        b'B' => 0x7fe0000000000000, // 2^1023
        b'i' => 0x7ff0000000000000, // infinity
        b'j' => 0xfff0000000000000, // -infinity
        b'p' => 0x4340000000000000, // 2^53
        b'P' => 0x4340000000000001, // 2^53 + 2
        b'u' => 0x43e0000000000000, // 2^63
        b'v' => 0xc3e0000000000000, // -2^63
        b'r' => 0xbff0000000000000, // -1
        b's' => 0x3ff8000000000000, // 1.5
        b'S' => 0xbff8000000000000, // -1.5
        b'l' => 0x1, // the least above 0
        b'x' => 0x7fefffffffffffff, // the greatest
        b'X' => 0xffefffffffffffff, // -the greatest
        _ => 0x7ff8000000000000,
    }
}

// The word of an integer, by a letter.
fn integer(letter: u8) -> u64 {
    match letter {
        b'A' => 0x1, // 1
        b'B' => 0x2, // 2
        b'D' => 0xffffffffffffffff, // -1
        b'E' => 0x1fffffffffffff, // 2^53 - 1
        b'F' => 0x20000000000001, // 2^53 + 1: a tie
        b'G' => 0x20000000000003, // 2^53 + 3: a tie
        b'H' => 0xffdfffffffffffff, // -(2^53 + 1)
        b'I' => 0xffdffffffffffffd, // -(2^53 + 3)
        b'J' => 0x40000000000002, // 2^54 + 2: a tie
        b'K' => 0x40000000000006, // 2^54 + 6: a tie
        b'L' => 0x4000000000000200, // 2^62 + 2^9: a tie
        b'M' => 0x4000000000000201, // just above the tie
        b'N' => 0x7ffffffffffffe00, // 2^63 - 2^9: a tie
        b'O' => 0x7ffffffffffffdff, // just below the tie
        b'P' => 0x7fffffffffffffff, // the greatest i64
        b'Q' => 0x8000000000000000, // the least i64
        b'R' => 0x8000000000000001, // one above it
        _ => 0, // b'C'
    }
}

fn letter(row: &[u8], i: usize) -> u8 {
    row.get(i).copied().unwrap_or(b'-')
}

fn float(row: &[u8], i: usize) -> f64 {
    number::real::float_of(real(letter(row, i)))
}

// The pattern of a float that no vector has as a NaN.
fn pattern(x: f64) -> u64 {
    if x == x { f64::to_bits(x) } else { 0 }
}

fn print_pair(name: &[u8], x: u64, y: f64) {
    io::write_all(1, name);
    io::print_hex(1, x, 16);
    io::write_all(1, b" ");
    io::print_hex(1, pattern(y), 16);
    io::write_all(1, b"\n");
}

fn print_range(range: Range) {
    match range {
        Range::BelowMinimum(v, m) => print_pair(b"below minimum ", pattern(v), m),
        Range::AboveMaximum(v, m) => print_pair(b"above maximum ", pattern(v), m),
        Range::AtOrBelowExclusiveMinimum(v, m) => print_pair(
            b"at or below exclusive minimum ",
            pattern(v),
            m,
        ),
        Range::AtOrAboveExclusiveMaximum(v, m) => print_pair(
            b"at or above exclusive maximum ",
            pattern(v),
            m,
        ),
    }
}

fn print_check(check: Result<(), NumberFault>) {
    match check {
        Ok(()) => {
            io::write_all(1, b"passes\n");
        }
        Err(NumberFault::OutOfRange(range)) => print_range(range),
        Err(NumberFault::NotMultiple(v, m)) => print_pair(b"no multiple ", pattern(v), m),
    }
}

fn print_flag(flag: bool) {
    io::write_all(1, if flag { b"1" } else { b"0" });
}

fn print_nearest(row: &[u8]) {
    let word = integer(letter(row, 0));
    print_pair(b"", word, number::integer::nearest_f64(word));
}

// A row is the value, minimum, maximum, exclusive minimum, exclusive maximum, multiple.
fn print_test(row: &[u8]) {
    let bounds = Bounds {
        minimum: float(row, 1),
        maximum: float(row, 2),
        exclusive_minimum: float(row, 3),
        exclusive_maximum: float(row, 4),
        multiple_of: float(row, 5),
    };
    print_check(number::tests::check_number(float(row, 0), bounds));
}

fn number_of(sort: u8, letter: u8) -> Number {
    if sort == b'#' {
        Number::Integer(integer(letter))
    } else {
        Number::Real(real(letter))
    }
}

// A row is two numbers, each a letter after '#' for an integer and '.' for a real; the answers are enum's, unique's, standard mode's.
fn print_equality(row: &[u8]) {
    let a = number_of(letter(row, 0), letter(row, 1));
    let b = number_of(letter(row, 2), letter(row, 3));
    print_flag(number::equal::equal_numbers(Equality::Enum, a, b));
    print_flag(number::equal::equal_numbers(Equality::Unique, a, b));
    print_flag(number::equal::equal_numbers(Equality::Standard, a, b));
    io::write_all(1, b"\n");
}

fn print_finite(row: &[u8]) {
    print_flag(number::real::is_finite(real(letter(row, 0))));
    io::write_all(1, b"\n");
}

// What a row is, its width says.
fn print_row(width: usize, row: &[u8]) {
    match width {
        1 => print_nearest(row),
        2 => print_finite(row),
        4 => print_equality(row),
        _ => print_test(row),
    }
}

// The rows of letters, `width` to a row.
fn print_rows(width: usize, rows: &[u8])
    requires { 0 < width }
{
    for row in rows.chunks(width) {
        print_row(width, row);
    }
}

fn main() {
    io::write_all(1, b"nearest\n");
    print_rows(1, b"ABCDEFGHIJKLMNOPQR");
    io::write_all(1, b"tests\n");
    // Minimum: below, on and above the bound; -0 at 0.
    print_rows(6, b"a3----33----b3----z0----");
    // Maximum: below, on and above the bound.
    print_rows(6, b"c-M---M-M---d-M---N-M---");
    // Exclusive minimum: below, on and above; 0 at -0.
    print_rows(6, b"a--3--3--3--b--3--0--z--");
    // Exclusive maximum: below, on and above.
    print_rows(6, b"a---3-3---3-b---3-");
    // Order: a value that every test refuses, with one bound less each time.
    print_rows(6, b"5645525-45525--5525---525----25-----");
    // Multiples: signs, zeros.
    print_rows(
        6,
        b"w----4t----4t----0t----zh----2m----4n----47----q8----q0----4z----4",
    );
    // Infinite multiples and values.
    print_rows(6, b"t----it----jT----i0----ii----4j----4i----i");
    // A remainder of 2^-52 passes, one above it does not.
    print_rows(6, b"e----1f----1g----1k----1G----1K----1");
    // Exact where the quotient is large: 2^1023 % 3 is 2.
    print_rows(6, b"B----3B----4");
    // Infinities at the bounds.
    print_rows(6, b"i-1---j1----i---i-i-i---");
    // A NaN passes every test.
    print_rows(6, b"-10002");
    io::write_all(1, b"equality\n");
    // Integers.
    print_rows(4, b"#A#A#A#B#D#A");
    // Reals.
    print_rows(4, b".s.s.s.S.0.z.z.z.3.b.-.-.i.i.i.j");
    // One of each.
    print_rows(4, b"#A.1#A.s#C.z#D.r#F.p#F.P#P.u#Q.v#C.-.1#A.s#A");
    io::write_all(1, b"finite\n");
    print_rows(2, b"0 z l x X i j - ");
}
