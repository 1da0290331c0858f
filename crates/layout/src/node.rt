// The kinds of nodes, by the numbers of table 2. They stay words, and no enum: the C interface lends them so, what reads a kind reads an
// unknown one too, and answer 1 gives the number back. Whoever asks for a kind matches on these.
pub const NULL: u32 = 0;

pub const BOOLEAN: u32 = 1;

pub const INTEGER: u32 = 2;

pub const REAL: u32 = 3;

pub const STRING: u32 = 4;

pub const ARRAY: u32 = 5;

pub const OBJECT: u32 = 6;

pub const ALIAS: u32 = 7;

pub const BAD_VALUE: u32 = 8;
