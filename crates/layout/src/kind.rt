// The kinds of schemas, by the numbers of table 4: words for the reasons that stand at `node`.
pub const TRUE: u32 = 0;

pub const BOOLEAN: u32 = 1;

pub const NUMBER: u32 = 2;

pub const STRING: u32 = 3;

pub const NULL: u32 = 4;

pub const ENUM: u32 = 5;

pub const ANY: u32 = 6;

pub const ANY_OF: u32 = 7;

pub const ALL_OF: u32 = 8;

pub const ARRAY: u32 = 9;

pub const OBJECT: u32 = 10;

pub const REF: u32 = 11;
