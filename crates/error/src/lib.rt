// The answer of every call, and the mode of a check.
#![tactic(auto)]

ghost use Rattle.std.specs.Prelude.{◌≡◌};
ghost use Rattle.error.specs.Answers.{answer_of, plain_answer, bad_table, found_record, refusal_of, with_used, number_of, reason_number, failure_answer};

use number::tests::Range;

// An optional word that is absent.
pub use text::NONE;

// Instance steps take two words each, schema steps one: what 64 levels need.
pub const INSTANCE_WORDS: usize = 128;

pub const SCHEMA_STEP_WORDS: usize = 64;

// How lengths are counted and numbers compared; a call without a mode means Source.
#[derive(Clone, Copy, PartialEq, Eq)]
pub enum Mode {
    Source,
    Standard,
}

// What an answer says beside its number.
#[derive(Clone, Copy)]
pub enum Detail {
    Empty,
    // The schema kind expected and the node kind found: the numbers by which the name table is read.
    Types { expected: u32, found: u32 },
    // A property's text, and its schema or NONE.
    Property { text: u32, schema: u32 },
    Key(u32),
    // A count, and the limit that it breaks.
    Count { count: u32, limit: u32 },
    // The value, then the multiple.
    Multiple(f64, f64),
    Pattern { subject: u32, pattern: u32 },
    Reference(u32),
    OutOfRange(Range),
}

// What is wrong with a value: the answers 1 to 14.
#[derive(Clone, Copy, PartialEq, Eq)]
pub enum Reason {
    TypeMismatch,
    MissingProperty,
    UnknownProperty,
    NotInEnum,
    OutOfRange,
    NotMultiple,
    StringLength,
    PatternMismatch,
    ArrayLength,
    NotUnique,
    PropertyCount,
    UnresolvedReference,
    DuplicateKey,
    InvalidPattern,
}

impl Reason {
    pub fn number(self) -> u32
        ensures { result ≡ reason_number self }
    {
        match self {
            Reason::TypeMismatch => 1,
            Reason::MissingProperty => 2,
            Reason::UnknownProperty => 3,
            Reason::NotInEnum => 4,
            Reason::OutOfRange => 5,
            Reason::NotMultiple => 6,
            Reason::StringLength => 7,
            Reason::PatternMismatch => 8,
            Reason::ArrayLength => 9,
            Reason::NotUnique => 10,
            Reason::PropertyCount => 11,
            Reason::UnresolvedReference => 12,
            Reason::DuplicateKey => 13,
            Reason::InvalidPattern => 14,
        }
    }
}

// Why a call ends without a word on the value: the answers from 20 on.
#[derive(Clone, Copy, PartialEq, Eq)]
pub enum Failure {
    // A table, and its first bad record or NONE for a size.
    BadTable { table: u32, record: u32 },
    WrongNumber,
    ShortBuffer,
    TooDeep,
    NoPatternAnswer,
    NoAlternative,
    NoBases,
    BaseNotObject,
    UnknownReference,
    NoRoom,
    NotFound,
}

impl Failure {
    pub fn number(self) -> u32
        ensures { result ≡ number_of self }
    {
        match self {
            Failure::BadTable { .. } => 20,
            Failure::WrongNumber => 21,
            Failure::ShortBuffer => 22,
            Failure::TooDeep => 23,
            Failure::NoPatternAnswer => 24,
            Failure::NoAlternative => 25,
            Failure::NoBases => 30,
            Failure::BaseNotObject => 31,
            Failure::UnknownReference => 32,
            Failure::NoRoom => 33,
            Failure::NotFound => 40,
        }
    }
}

// How many records of tables 3, 4 and 7 are used, after a compile.
#[derive(Clone, Copy, PartialEq, Eq)]
pub struct Used {
    pub notes: u32,
    pub schemas: u32,
    pub links: u32,
}

// A word that an answer does not have is NONE; counts of paths are counts of steps.
#[derive(Clone, Copy)]
pub struct Answer {
    // As the C interface has it; `Reason` and `Failure` have the names.
    pub number: u32,
    pub table: u32,
    // The bad record with 20, the node that navigation finds, the record that compile makes.
    pub place: u32,
    pub node: u32,
    pub schema: u32,
    pub hint: u32,
    pub detail: Detail,
    // How many steps the instance path has, and the schema path.
    pub steps: u32,
    pub kinds: u32,
    pub used: Used,
}

// An answer that refuses no value: its number, a table and a place.
#[tactic(auto, unfolding(crate::specs::Answers::answer_of))]
fn at_place(number: u32, table: u32, place: u32) -> Answer
    ensures { result ≡ answer_of number table place }
{
    Answer {
        number,
        table,
        place,
        node: NONE,
        schema: NONE,
        hint: NONE,
        detail: Detail::Empty,
        steps: 0,
        kinds: 0,
        used: Used {
            notes: NONE,
            schemas: NONE,
            links: NONE,
        },
    }
}

// An answer that carries nothing but its number.
pub fn plain(number: u32) -> Answer
    ensures { result ≡ plain_answer number }
{
    at_place(number, NONE, NONE)
}

// 20: a bad table, and its first bad record, or NONE for a size.
pub fn bad_table(table: u32, place: u32) -> Answer
    ensures { result ≡ bad_table table place }
{
    at_place(20, table, place)
}

// A call that ends so: 20 names its table and record, the others only themselves.
pub fn failed(failure: Failure) -> Answer
    ensures { result ≡ failure_answer failure }
{
    match failure {
        Failure::BadTable { table, record } => bad_table(table, record),
        _ => plain(failure.number()),
    }
}

// 0 with the record: a node that is found, a schema that is made.
pub fn found(place: u32) -> Answer
    ensures { result ≡ found_record place }
{
    at_place(0, NONE, place)
}

// 1 to 14: a value that is refused.
#[tactic(auto, unfolding(crate::specs::Answers::answer_of, crate::specs::Answers::refusal_of))]
pub fn refusal(
    number: u32,
    node: u32,
    schema: u32,
    hint: u32,
    detail: Detail,
    steps: u32,
    kinds: u32,
) -> Answer
    ensures { result ≡ refusal_of number node schema hint detail steps kinds }
{
    Answer {
        node,
        schema,
        hint,
        detail,
        steps,
        kinds,
        ..plain(number)
    }
}

// Compile's answers carry their used counts, whatever they are.
#[tactic(auto, unfolding(crate::specs::Answers::with_used))]
pub fn with_used(a: Answer, used: Used) -> Answer
    ensures { result ≡ with_used a used }
{
    Answer { used, ..a }
}
