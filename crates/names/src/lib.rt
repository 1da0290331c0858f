// The type names of nodes and of schemas: one constant table, read by node kind and by schema kind.
// Assumes nothing.
#![tactic(auto)]

ghost use Rattle.std.specs.Prelude.{◌≡◌, ◌<◌};
ghost use Rattle.names.specs.Names.{named, yaml_type_name, type_name, table_name};

// A name to a row, padded to 8 bytes: those of node kinds 0 to 7, of schema kinds 0 to 11, and the empty one.
const NAMES: [u8; 168] = *b"null\0\0\0\0\
    boolean\0\
    integer\0\
    float\0\0\0\
    string\0\0\
    array\0\0\0\
    object\0\0\
    alias\0\0\0\
    true\0\0\0\0\
    boolean\0\
    number\0\0\
    string\0\0\
    null\0\0\0\0\
    enum\0\0\0\0\
    any\0\0\0\0\0\
    anyOf\0\0\0\
    allOf\0\0\0\
    array\0\0\0\
    object\0\0\
    $ref\0\0\0\0\
    \0\0\0\0\0\0\0\0";

const LENGTHS: [usize; 21] = [
    4, 7, 7, 5, 6, 5, 6, 5, 4, 7, 6, 6, 4, 4, 3, 5, 5, 5, 6, 4, 0,
];

// The row of schema kind 0; the other kinds follow it.
const SCHEMAS: usize = 8;

// The row of every kind that is none.
const UNKNOWN: usize = 20;

// A name by value: its bytes, padded with 0, and how many of them count.
#[derive(Clone, Copy)]
pub struct Name {
    pub bytes: [u8; 8],
    pub len: usize,
}

// Row k of the table.
fn row(k: usize) -> Name
    requires { k < 21 }
    ensures { result ≡ named (table_name k) }
{
    let a = 8 * k;
    Name {
        bytes: [
            NAMES[a],
            NAMES[a + 1],
            NAMES[a + 2],
            NAMES[a + 3],
            NAMES[a + 4],
            NAMES[a + 5],
            NAMES[a + 6],
            NAMES[a + 7],
        ],
        len: LENGTHS[k],
    }
}

// The name that a node of this kind answers under; null and bad value share one.
pub fn yaml_type_name(kind: u32) -> Name
    ensures { result ≡ named (yaml_type_name kind) }
{
    // Kinds by number here and below: a kind is the place of its row in the table.
    match kind {
        0 | 8 => row(0),
        1..=7 => row(kind as usize),
        _ => row(UNKNOWN),
    }
}

// The name that a schema of this kind is called by.
pub fn type_name(kind: u32) -> Name
    ensures { result ≡ named (type_name kind) }
{
    match kind {
        0..=11 => row(SCHEMAS + kind as usize),
        _ => row(UNKNOWN),
    }
}
