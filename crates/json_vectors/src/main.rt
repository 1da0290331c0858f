// Vectors of JSON equality, written from document 01: pairs of nodes of one table, and whether they are equal for enum, for unique and in standard mode.
#![tactic(auto)]

ghost use Rattle.std.specs.Prelude.{◌≤◌, ◌<◌, length};

use layout::Tables;
use number::equal::Equality;

// Two nodes, and the ways in which they are equal: bit 2 is enum, bit 1 unique, bit 0 standard.
type Row = (u32, u32, u32);

// Whether nodes a and b compare otherwise than expected.
fn is_wrong(way: Equality, a: u32, b: u32, expected: bool) -> bool {
    let pool: &[u8] = b"ab1a";
    let texts: [u32; 8] = [0, 1, 1, 1, 2, 1, 3, 1];
    let nodes: [u32; 196] = [
        0, 0, 0, 0, // 0: null
        7, 0, 0, 0, // 1: alias
        8, 0, 0, 0, // 2: bad value
        1, 0, 0, 0, // 3: false
        1, 1, 0, 0, // 4: true
        2, 0, 0, 0, // 5: 1
        2, 1, 0, 0, // 6: 2
        2, 3, 0, 0, // 7: 0
        2, 10, 0, 0, // 8: 1, another number of the table
        3, 2, 2, 0, // 9: 1.0
        3, 3, 3, 0, // 10: 0.0
        3, 4, 4, 0, // 11: -0.0
        3, 2, 4294967295, 0, // 12: a real that parse refuses
        3, 5, 5, 0, // 13: an infinity
        3, 6, 6, 0, // 14: a NaN
        3, 4294967295, 2, 0, // 15: 1.0, which only parse takes
        2, 7, 0, 0, // 16: 2^53 + 1
        2, 8, 0, 0, // 17: 2^53
        3, 9, 9, 0, // 18: 2^53 as a real
        4, 0, 0, 0, // 19: "a"
        4, 1, 0, 0, // 20: "b"
        4, 2, 0, 0, // 21: "1"
        4, 3, 0, 0, // 22: "a", another text of the table
        5, 0, 0, 0, // 23: []
        5, 0, 1, 0, // 24: [1]
        5, 1, 1, 0, // 25: [1] again
        5, 2, 1, 0, // 26: [1.0]
        5, 3, 2, 0, // 27: [1, 2]
        5, 5, 2, 0, // 28: [2, 1]
        5, 7, 1, 0, // 29: [0.0]
        5, 8, 1, 0, // 30: [-0.0]
        5, 9, 1, 0, // 31: [null]
        5, 10, 1, 0, // 32: [alias]
        6, 11, 0, 0, // 33: {}
        6, 11, 2, 0, // 34: {a: 1, b: 2}
        6, 15, 2, 0, // 35: {b: 2, a: 1}
        6, 19, 3, 0, // 36: {a: 2, a: 1, b: 2}
        6, 25, 3, 0, // 37: {a: 1, b: 2, a: 2}
        6, 31, 1, 0, // 38: {a: 1}
        6, 33, 2, 0, // 39: {a: 1, 1: 2}
        6, 37, 2, 0, // 40: {a: 1.0, b: 2}
        6, 41, 1, 0, // 41: {1: 2}
        6, 43, 1, 0, // 42: {a: null}
        6, 45, 1, 0, // 43: {b: null}
        6, 47, 1, 0, // 44: {a: [1]}
        6, 49, 1, 0, // 45: {a: [1] again}
        6, 51, 1, 0, // 46: {a: [1.0]}
        6, 53, 1, 0, // 47: {a: 0.0}
        6, 55, 1, 0, // 48: {a: -0.0}
    ];
    let links: [u32; 57] = [
        5, 8, 9, 5, 6, 6, 5, 10, 11, 0, 1, 19, 5, 20, 6, 20, 6, 22, 8, 19, 6, 19, 5, 20, 6, 19, 5,
        20, 6, 22, 6, 19, 5, 19, 5, 5, 6, 19, 9, 20, 6, 5, 6, 19, 0, 20, 0, 19, 24, 22, 25, 19, 26,
        19, 10, 19, 11,
    ];
    let numbers: [u64; 11] = [
        0x1, // 1
        0x2, // 2
        0x3ff0000000000000, // 1.0
        0x0, // 0.0
        0x8000000000000000, // -0.0
        0x7ff0000000000000, // an infinity
        0x7ff8000000000000, // a NaN
        0x20000000000001, // 2^53 + 1
        0x20000000000000, // 2^53
        0x4340000000000000, // 2^53 as a real
        0x1, // 1 again
    ];
    let tables = Tables::new(pool, &texts, &nodes, &[], &[], &[], &[], &links, &numbers);
    json_equality::equal_nodes(way, &tables, a, b) != expected
}

// How many ways are wrong about a row.
fn row_wrong(row: Row) -> u64
    ensures { result ≤ 3 }
{
    let (a, b, ways) = row;
    is_wrong(Equality::Enum, a, b, ways & 4 != 0) as u64
        + is_wrong(Equality::Unique, a, b, ways & 2 != 0) as u64
        + is_wrong(Equality::Standard, a, b, ways & 1 != 0) as u64
}

fn rows_wrong(rows: &[Row]) -> u64
    requires { length rows.now < 1000 }
{
    let mut sum = 0;
    for &row in rows {
        sum += row_wrong(row);
    }
    sum
}

fn main() {
    let rows: [Row; 54] = [
        (0, 1, 0b111), // null and alias
        (0, 2, 0b111), // null and bad value
        (2, 1, 0b111), // bad value and alias
        (0, 12, 0b111), // null and a real that parse refuses
        (13, 0, 0b111), // an infinity and null
        (14, 13, 0b111), // a NaN and an infinity
        (0, 3, 0b000), // null and false
        (0, 23, 0b000), // null and []
        (3, 4, 0b000), // false and true
        (4, 4, 0b111), // true and true
        (5, 8, 0b111), // 1 and 1, another number of the table
        (5, 6, 0b000), // 1 and 2
        (4, 5, 0b000), // true and 1
        (5, 9, 0b001), // 1 and 1.0
        (9, 5, 0b001), // 1.0 and 1
        (9, 15, 0b111), // 1.0 and 1.0, which only parse takes
        (12, 9, 0b000), // a real that parse refuses and 1.0
        (10, 11, 0b101), // 0.0 and -0.0
        (7, 10, 0b001), // 0 and 0.0
        (7, 11, 0b001), // 0 and -0.0
        (7, 3, 0b000), // 0 and false
        (16, 18, 0b001), // 2^53 + 1 and 2^53 as a real
        (17, 18, 0b001), // 2^53 and 2^53 as a real
        (16, 17, 0b000), // 2^53 + 1 and 2^53
        (19, 22, 0b111), // "a" and "a", another text of the table
        (19, 20, 0b000), // "a" and "b"
        (21, 5, 0b000), // "1" and 1
        (23, 33, 0b000), // [] and {}
        (23, 23, 0b111), // [] and []
        (24, 25, 0b111), // [1] and [1] again
        (24, 26, 0b001), // [1] and [1.0]
        (24, 27, 0b000), // [1] and [1, 2]
        (27, 24, 0b000), // [1, 2] and [1]
        (27, 28, 0b000), // [1, 2] and [2, 1]
        (29, 30, 0b101), // [0.0] and [-0.0]
        (31, 32, 0b111), // [null] and [alias]
        (23, 31, 0b000), // [] and [null]
        (34, 35, 0b111), // {a: 1, b: 2} and {b: 2, a: 1}
        (34, 36, 0b111), // {a: 1, b: 2} and {a: 2, a: 1, b: 2}
        (36, 35, 0b111), // {a: 2, a: 1, b: 2} and {b: 2, a: 1}
        (34, 37, 0b000), // {a: 1, b: 2} and {a: 1, b: 2, a: 2}
        (36, 37, 0b000), // {a: 2, a: 1, b: 2} and {a: 1, b: 2, a: 2}
        (38, 39, 0b111), // {a: 1} and {a: 1, 1: 2}
        (39, 34, 0b000), // {a: 1, 1: 2} and {a: 1, b: 2}
        (38, 34, 0b000), // {a: 1} and {a: 1, b: 2}
        (34, 38, 0b000), // {a: 1, b: 2} and {a: 1}
        (40, 35, 0b001), // {a: 1.0, b: 2} and {b: 2, a: 1}
        (33, 41, 0b111), // {} and {1: 2}
        (33, 42, 0b000), // {} and {a: null}
        (42, 33, 0b000), // {a: null} and {}
        (42, 43, 0b000), // {a: null} and {b: null}
        (44, 45, 0b111), // {a: [1]} and {a: [1] again}
        (44, 46, 0b001), // {a: [1]} and {a: [1.0]}
        (47, 48, 0b101), // {a: 0.0} and {a: -0.0}
    ];
    io::print_decimal(1, 3 * rows.len() as u64);
    io::write_all(1, b" vectors, ");
    io::print_decimal(1, rows_wrong(&rows));
    io::write_all(1, b" wrong\n");
}
