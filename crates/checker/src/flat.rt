// An answer with its detail laid flat: no enum crosses the boundary.
ghost use Rattle.std.specs.Prelude.{◌≡◌};
ghost use Rattle.checker.specs.Flat.{words_of, reals_of, range_parts, parts_of, flat_of};

use error::{Answer, Detail, NONE};
use number::tests::Range;

// `qy_answer` of the header, in its order.
#[repr(C)]
#[derive(Clone, Copy)]
pub struct Flat {
    pub number: u32,
    pub table: u32,
    pub place: u32,
    pub node: u32,
    pub schema: u32,
    pub hint: u32,
    pub detail: u32,
    pub a: u32,
    pub b: u32,
    pub steps: u32,
    pub kinds: u32,
    pub notes: u32,
    pub schemas: u32,
    pub links: u32,
    pub value: f64,
    pub bound: f64,
}

// A detail's case by number, its two words, and its two numbers.
#[derive(Clone, Copy)]
struct Parts {
    kind: u32,
    a: u32,
    b: u32,
    value: f64,
    bound: f64,
}

fn words(kind: u32, a: u32, b: u32) -> Parts
    ensures { result ≡ words_of kind a b }
{
    Parts {
        kind,
        a,
        b,
        value: 0.0,
        bound: 0.0,
    }
}

fn reals(kind: u32, value: f64, bound: f64) -> Parts
    ensures { result ≡ reals_of kind value bound }
{
    Parts {
        kind,
        a: NONE,
        b: NONE,
        value,
        bound,
    }
}

impl From<Range> for Parts {
    ghost from_gives = { λ range parts. parts ≡ range_parts range };

    fn from(range: Range) -> Parts {
        match range {
            Range::BelowMinimum(value, bound) => reals(8, value, bound),
            Range::AboveMaximum(value, bound) => reals(9, value, bound),
            Range::AtOrBelowExclusiveMinimum(value, bound) => reals(10, value, bound),
            Range::AtOrAboveExclusiveMaximum(value, bound) => reals(11, value, bound),
        }
    }
}

impl From<Detail> for Parts {
    ghost from_gives = { λ detail parts. parts ≡ parts_of detail };

    fn from(detail: Detail) -> Parts {
        match detail {
            Detail::Empty => words(0, NONE, NONE),
            Detail::Types { expected, found } => words(1, expected, found),
            Detail::Property { text, schema } => words(2, text, schema),
            Detail::Key(text) => words(3, text, NONE),
            Detail::Count { count, limit } => words(4, count, limit),
            Detail::Multiple(value, multiple) => reals(5, value, multiple),
            Detail::Pattern { subject, pattern } => words(6, subject, pattern),
            Detail::Reference(text) => words(7, text, NONE),
            Detail::OutOfRange(range) => Parts::from(range),
        }
    }
}

impl From<Answer> for Flat {
    ghost from_gives = { λ answer flat. flat ≡ flat_of answer };

    fn from(answer: Answer) -> Flat {
        let used = answer.used;
        let parts = Parts::from(answer.detail);
        Flat {
            number: answer.number,
            table: answer.table,
            place: answer.place,
            node: answer.node,
            schema: answer.schema,
            hint: answer.hint,
            detail: parts.kind,
            a: parts.a,
            b: parts.b,
            steps: answer.steps,
            kinds: answer.kinds,
            notes: used.notes,
            schemas: used.schemas,
            links: used.links,
            value: parts.value,
            bound: parts.bound,
        }
    }
}
