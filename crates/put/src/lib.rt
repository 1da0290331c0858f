// What stands below the recursion: where a schema leads, and appending what a compiled record holds: the numbers of its children, and the
// words of a plain object.
#![tactic(auto)]

ghost use Rattle.std.specs.Prelude.{◌≡◌, ◌*◌, ◌≤◌, ◌<◌, take, eqb, get_or, is_ok, length, IfErr};
ghost use Rattle.append.specs.Append.{room};
ghost use Rattle.layout.specs.Layout.{NONE, schema_word, schema_words, most_links};
ghost use Rattle.error.specs.declared.Failure.TheVariants.{NoRoom};
ghost use Rattle.merge.specs.Pairs.{span};
ghost use Rattle.derive.specs.Meets.{told};
ghost use Rattle.put.specs.Chase.{chase_in, lead_in, is_fresh, num, next, weave_at, entry_words};
ghost use Rattle.put.specs.Meets.{Laid, Listed, LayReady};

use derive::{Made, Origin, finish};
use error::{Failure, Used};
use layout::kind;
use layout::rows::object_row;
use layout::schema::{
    BASES, CLOSED, KIND, NAMING, NOTE, OBJECT_MAXIMUM, OBJECT_MINIMUM, PATTERN_PROPERTIES,
    PROPERTIES, REF_EAGER, REF_TEXT, REQUIRED,
};
use layout::words::{MOST_LINKS, NONE};
use merge::{field, word};
use text::Texts;

// A list's count stands after its first place.
pub const PROPERTY_COUNT: u32 = PROPERTIES + 1;

pub const PATTERN_COUNT: u32 = PATTERN_PROPERTIES + 1;

const REQUIRED_COUNT: u32 = REQUIRED + 1;

// Where a schema leads: a record that is its own answer, or one to build with so many levels left below it.
#[derive(Clone, Copy)]
pub enum Lead {
    Leaf(u32),
    Node { schema: u32, below: u32 },
}

// Where a schema leads.
pub fn chase(
    texts: &Texts,
    registry: &[u32],
    schemas: &[u32],
    us: u32,
    level: u32,
    s: u32,
) -> Result<Lead, Failure>
    ensures { let records = take (us * schema_words) schemas.now in
        result ≡ chase_in texts.now.pool.now texts.now.records.now registry.now records us level s }
{
    let mut at = s;
    for left in (0..level).rev() {
        if us <= at {
            return Err(Failure::WrongNumber);
        }
        let kind = field(schemas, us, at, KIND);
        if kind == kind::REF {
            if field(schemas, us, at, REF_EAGER) != 1 {
                return Ok(Lead::Leaf(at));
            }
            let name = field(schemas, us, at, REF_TEXT);
            let Some(t) = lookup::resolve(texts, registry, name) else {
                return Err(Failure::UnknownReference);
            };
            at = t;
        } else {
            if kind < kind::ANY_OF || kind > kind::OBJECT {
                return Ok(Lead::Leaf(at));
            }
            return Ok(Lead::Node {
                schema: at,
                below: left,
            });
        }
    }
    Err(Failure::TooDeep)
}

// Whether an object is plain: it has no list of bases.
pub fn is_plain(schemas: &[u32], us: u32, s: u32) -> bool
    ensures { result ≡ eqb (schema_word (take (us * schema_words) schemas.now) s 14) NONE }
{
    field(schemas, us, s, BASES) == NONE
}

// The number of a child that is compiled, and the stack's top after it: a leaf's is its own, the others stand on the stack.
fn child(
    origin: &Origin,
    schemas: &[u32],
    stack: &[u32],
    below: u32,
    s: u32,
    top: u32,
) -> (u32, u32)
    requires { top < 65536 }
    ensures number { let lead = lead_in origin.now schemas.now below s in
        result.0 ≡ num lead (get_or stack.now top 0) }
    ensures top { result.1 ≡ next (is_fresh (lead_in origin.now schemas.now below s)) top }
{
    let stacked = word(stack, stack.len(), top as usize);
    match chase(
        &origin.texts,
        origin.registry,
        schemas,
        origin.base.schemas,
        below,
        s,
    ) {
        Ok(Lead::Leaf(n)) => (n, top),
        // Two arms that say the same: the cases of an or-pattern carry no facts (docs/PROVING.md).
        Ok(Lead::Node { .. }) => (stacked, top + 1),
        Err(_) => (stacked, top + 1),
    }
}

// Whether the links have room for n more words.
fn has_room(links: &[u32], used: usize, n: usize) -> Result<(), Failure>
    ensures fits { is_ok result ≡ room most_links (length links.now) used n }
    ensures full { IfErr result (λ failure. failure ≡ NoRoom) }
{
    let most = MOST_LINKS.min(links.len());
    if used <= most && n <= most - used {
        return Ok(());
    }
    Err(Failure::NoRoom)
}

// Appends the numbers of children: the leaves are found again, the others stand on the stack from sp on.
pub fn put_list(
    origin: &Origin,
    schemas: &[u32],
    stack: &[u32],
    links: &mut [u32],
    below: u32,
    at: u32,
    count: u32,
    ul: u32,
    sp: u32,
) -> Result<(), Failure>
    requires { (origin.now.base.links ≤ ul) × (sp ≤ 4096) }
    ensures listed { let lead = lead_in origin.now schemas.now below in
        let items = span (take origin.now.base.links links.old) at 1 count in
        Listed links.old links.new ul count (weave_at lead items stack.now sp)
        (is_ok result) }
    ensures full { IfErr result (λ failure. failure ≡ NoRoom) }
{
    let lb = origin.base.links as usize;
    let n = count as usize;
    let u = ul as usize;
    has_room(links, u, n)?;
    let mut p = sp;
    for i in 0..n {
        let s = word(links, lb, (at as usize) + i);
        let (x, top) = child(origin, schemas, stack, below, s, p);
        links[u + i] = x;
        p = top;
    }
    Ok(())
}

// Appends the pairs of an object's list, their values as `put_list` appends numbers. Keys stand beside these: one generic form of
// the two is no plainer.
fn put_entries(
    origin: &Origin,
    schemas: &[u32],
    stack: &[u32],
    links: &mut [u32],
    below: u32,
    at: u32,
    count: u32,
    ul: u32,
    sp: u32,
) -> Result<(), Failure>
    requires { (origin.now.base.links ≤ ul) × (sp ≤ 4096) }
    ensures listed { let lead = lead_in origin.now schemas.now below in
        let read = take origin.now.base.links links.old in
        Listed links.old links.new ul (count * 2)
        (entry_words lead read at count stack.now sp)
        (is_ok result) }
    ensures full { IfErr result (λ failure. failure ≡ NoRoom) }
{
    let lb = origin.base.links as usize;
    let n = count as usize;
    let u = ul as usize;
    has_room(links, u, n * 2)?;
    let mut p = sp;
    for i in 0..n {
        let from = (at as usize) + i * 2;
        let key = word(links, lb, from);
        let s = word(links, lb, from + 1);
        let (x, top) = child(origin, schemas, stack, below, s, p);
        let to = u + i * 2;
        links[to] = key;
        links[to + 1] = x;
        p = top;
    }
    Ok(())
}

// Appends the links of a plain object's two lists and its record: the notes are not asked for, and the stack is only read. `used` and `sp`
// stand beside them: `build` hands on counts of its own at each level, so a value of both would be taken apart at each call.
pub fn put_object(
    origin: &Origin,
    schemas: &mut [u32],
    stack: &[u32],
    links: &mut [u32],
    below: u32,
    s: u32,
    used: Used,
    sp: u32,
    mid: u32,
    additional: u32,
    names: u32,
) -> Result<Made, Failure>
    requires { LayReady origin.now.base used stack.now sp mid }
    ensures { let C = origin.now in
        Laid C.texts.pool.now C.texts.records.now C.registry.now C.base used below s
        schemas.old schemas.new links.old links.new stack.now sp mid additional names
        (told used result) }
{
    let us = origin.base.schemas;
    let note = field(schemas, us, s, NOTE);
    let first = field(schemas, us, s, PROPERTIES);
    let count = field(schemas, us, s, PROPERTY_COUNT);
    let on = field(schemas, us, s, PATTERN_PROPERTIES);
    let patterns = field(schemas, us, s, PATTERN_COUNT);
    let required = field(schemas, us, s, REQUIRED);
    let wanted = field(schemas, us, s, REQUIRED_COUNT);
    let least = field(schemas, us, s, OBJECT_MINIMUM);
    let most = field(schemas, us, s, OBJECT_MAXIMUM);
    let closed = field(schemas, us, s, CLOSED);
    let naming = field(schemas, us, s, NAMING);
    let ul = used.links;
    put_entries(origin, schemas, stack, links, below, first, count, ul, sp)?;
    let after = ul + count * 2;
    put_entries(
        origin, schemas, stack, links, below, on, patterns, after, mid,
    )?;
    let v = Used {
        links: after + patterns * 2,
        ..used
    };
    let rec = object_row(
        note, ul, count, after, patterns, additional, required, wanted, least, most, closed, names,
        naming,
    );
    finish(schemas, v, rec)
}
