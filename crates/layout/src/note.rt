// Where the words of a note stand.
pub const ID: u32 = 0;

pub const DESCRIPTION: u32 = 1;

pub const DOCUMENTATION: u32 = 2;

pub const ERROR_MESSAGE: u32 = 3;

pub const HIDDEN: u32 = 4;

pub const COMPLETIONS: u32 = 5;

pub const ADDITIONAL_COMPLETIONS: u32 = 6;

pub const TAGS: u32 = 7;

pub const CASE_DETECTION: u32 = 8;
