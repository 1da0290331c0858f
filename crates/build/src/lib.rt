// Compiling, once the tables are sound: eager references resolved, bases merged. The source is read below the used counts at entry,
// what is built is appended. The functions call each other; `below` counts the levels that are left.
#![tactic(auto)]

ghost use Rattle.std.specs.Prelude.{◌≡◌, ◌*◌, ◌≤◌, set, take, drop, eqb, is_ok, IfErr};
ghost use Rattle.text.specs.Choice.{pick};
ghost use Rattle.layout.specs.Layout.{NONE, schema_word, schema_words};
ghost use Rattle.error.specs.declared.Failure.TheVariants.{NoRoom};
ghost use Rattle.merge.specs.Pairs.{span};
ghost use Rattle.compilation.specs.Table.{compile_at, group_at, array_at, node_at, perhaps_at, derived_at, plain_at, all_objects};
ghost use Rattle.derive.specs.Meets.{Ready, Builds, SameLent};
ghost use Rattle.put.specs.Chase.{lead_in, next, weave_at};
ghost use Rattle.put.specs.Meets.{Listed};
ghost use Rattle.build.specs.Meets.{Compiles, CompilesEach, CompilesOrNone, Pushable, EachReady};

use derive::{Made, Origin, Work, finish, merge_object_schemas};
use error::{Failure, Used};
use inherit::objects;
use layout::kind;
use layout::rows::list_row;
use layout::schema::{
    ADDITIONAL, ARRAY_MAXIMUM, ARRAY_MINIMUM, BASES, ITEMS, KIND, LIST, NAMES, NOTE,
    PATTERN_PROPERTIES, PROPERTIES, UNIQUE,
};
use layout::words::{NONE, SCHEMA_WORDS};
use merge::{first_words, word, words_from};
use put::{Lead, PATTERN_COUNT, PROPERTY_COUNT, chase, is_plain, put_list, put_object};
use std::mem;

// A list's count stands after its first place.
const LIST_COUNT: u32 = LIST + 1;

const BASES_COUNT: u32 = BASES + 1;

// What children became: the used counts and the stack's top.
#[derive(Clone, Copy)]
pub struct Many {
    pub used: Used,
    pub top: u32,
}

// Where a schema leads. Passed on as `&` from behind a `&mut`, a field loses its facts (tried): so in the next two.
fn lead_of(origin: &Origin, work: &Work, level: u32, s: u32) -> Result<Lead, Failure>
    ensures { result ≡ lead_in origin.now work.now.schemas.now level s }
{
    let us = origin.base.schemas;
    chase(&origin.texts, origin.registry, work.schemas, us, level, s)
}

// Whether an object is plain.
fn has_no_bases(work: &Work, us: u32, s: u32) -> bool
    ensures { result ≡ eqb (schema_word (take (us * schema_words) work.now.schemas.now) s 14) NONE }
{
    is_plain(work.schemas, us, s)
}

// Appends the numbers of children.
fn put_numbers(
    origin: &Origin,
    work: &Work,
    links: &mut [u32],
    below: u32,
    at: u32,
    count: u32,
    ul: u32,
    sp: u32,
) -> Result<(), Failure>
    requires { (origin.now.base.links ≤ ul) × (sp ≤ 4096) }
    ensures listed { let lead = lead_in origin.now work.now.schemas.now below in
        let items = span (take origin.now.base.links links.old) at 1 count in
        Listed links.old links.new ul count (weave_at lead items work.now.stack.now sp)
        (is_ok result) }
    ensures full { IfErr result (λ failure. failure ≡ NoRoom) }
{
    put_list(
        origin,
        work.schemas,
        work.stack,
        links,
        below,
        at,
        count,
        ul,
        sp,
    )
}

// One schema: a leaf is its own answer, a reference is followed, the others are built.
// `used` and `sp` stand beside the work: each level hands on counts of its own, so a value of both would be taken apart at each call.
// `Ready` is asked, no type says it: it relates the counts at entry, those now, the stack and its top, and none of them holds the others.
#[cycle(array_derived_each_group_node_one_perhaps_plain)]
pub fn one(
    origin: &Origin,
    work: &mut Work,
    links: &mut [u32],
    level: u32,
    s: u32,
    used: Used,
    sp: u32,
) -> Result<Made, Failure>
    requires { Ready origin.now.base used work.old.stack.now sp }
    ensures made { Compiles origin.now work.old work.new links.old links.new
        used sp level s result }
    ensures lent { SameLent work.old work.new }
{
    let lead = lead_of(origin, work, level, s)?;
    match lead {
        Lead::Leaf(n) => Ok(Made {
            rec: n,
            fresh: false,
            used,
        }),
        Lead::Node { schema, below } => node(origin, work, links, below, schema, used, sp),
    }
}

// A record that is built anew.
#[cycle(array_derived_each_group_node_one_perhaps_plain)]
fn node(
    origin: &Origin,
    work: &mut Work,
    links: &mut [u32],
    below: u32,
    s: u32,
    used: Used,
    sp: u32,
) -> Result<Made, Failure>
    requires { Ready origin.now.base used work.old.stack.now sp }
    ensures made { Builds origin.now work.old work.new links.old links.new used sp
        (λ C st. node_at C (compile_at C below) st s)
        result }
    ensures lent { SameLent work.old work.new }
{
    let us = origin.base.schemas;
    let kind = work.field(us, s, KIND);
    if kind == kind::ARRAY {
        return array(origin, work, links, below, s, used, sp);
    }
    if kind == kind::OBJECT {
        if has_no_bases(work, us, s) {
            return plain(origin, work, links, below, s, used, sp);
        }
        return derived(origin, work, links, below, s, used, sp);
    }
    group(origin, work, links, below, s, used, sp)
}

// Puts a new record's number on the stack.
fn push(stack: &mut [u32], top: u32, fresh: bool, n: u32) -> u32
    requires { Pushable fresh top stack.old }
    ensures { (result ≡ next fresh top) × (stack.new ≡ pick fresh (set stack.old top n) stack.old) }
{
    if fresh {
        stack[top as usize] = n;
        return top + 1;
    }
    top
}

// Children in order. The numbers of those that are built stay on the stack.
#[cycle(array_derived_each_group_node_one_perhaps_plain)]
fn each(
    origin: &Origin,
    work: &mut Work,
    links: &mut [u32],
    below: u32,
    at: usize,
    step: u32,
    count: u32,
    used: Used,
    sp: u32,
) -> Result<Many, Failure>
    requires { EachReady origin.now.base used work.old.stack.now sp at step }
    ensures made { let items = span (take origin.now.base.links links.old) at step count in
        CompilesEach origin.now work.old work.new links.old links.new used sp below items result }
    ensures lent { SameLent work.old work.new }
{
    let lb = origin.base.links as usize;
    let mut q = at;
    let mut u = used;
    let mut top = sp;
    for i in 0..count {
        let s = word(links, lb, q);
        let a = one(origin, work, links, below, s, u, top)?;
        top = push(work.stack, top, a.fresh, a.rec);
        u = a.used;
        q += step as usize;
    }
    Ok(Many { used: u, top })
}

// anyOf and allOf.
#[cycle(array_derived_each_group_node_one_perhaps_plain)]
fn group(
    origin: &Origin,
    work: &mut Work,
    links: &mut [u32],
    below: u32,
    s: u32,
    used: Used,
    sp: u32,
) -> Result<Made, Failure>
    requires { Ready origin.now.base used work.old.stack.now sp }
    ensures made { Builds origin.now work.old work.new links.old links.new used sp
        (λ C st. group_at C (compile_at C below) st s)
        result }
    ensures lent { SameLent work.old work.new }
{
    let us = origin.base.schemas;
    let kind = work.field(us, s, KIND);
    let note = work.field(us, s, NOTE);
    let first = work.field(us, s, LIST);
    let count = work.field(us, s, LIST_COUNT);
    let a = each(
        origin,
        work,
        links,
        below,
        first as usize,
        1,
        count,
        used,
        sp,
    )?;
    let u = a.used;
    let ul = u.links;
    put_numbers(origin, work, links, below, first, count, ul, sp)?;
    let v = Used {
        links: ul + count,
        ..u
    };
    let rec = list_row(kind, note, ul, count);
    finish(work.schemas, v, rec)
}

// Whether the records that count numbers of the stack name, from its place sp on, are objects.
fn are_objects(work: &Work, us: u32, sp: u32, count: u32) -> bool
    ensures { let records = take (us * schema_words) work.now.schemas.now in
        result ≡ all_objects records (take count (drop sp work.now.stack.now)) }
{
    objects(
        first_words(work.schemas, (us as usize) * SCHEMA_WORDS),
        words_from(work.stack, sp as usize, count as usize),
    )
}

// An object with bases.
#[cycle(array_derived_each_group_node_one_perhaps_plain)]
fn derived(
    origin: &Origin,
    work: &mut Work,
    links: &mut [u32],
    below: u32,
    s: u32,
    used: Used,
    sp: u32,
) -> Result<Made, Failure>
    requires { Ready origin.now.base used work.old.stack.now sp }
    ensures made { Builds origin.now work.old work.new links.old links.new used sp
        (λ C st. derived_at C (compile_at C below) st s)
        result }
    ensures lent { SameLent work.old work.new }
{
    let us = origin.base.schemas;
    let first = work.field(us, s, BASES);
    let count = work.field(us, s, BASES_COUNT);
    let a = each(
        origin,
        work,
        links,
        below,
        first as usize,
        1,
        count,
        used,
        sp,
    )?;
    let u = a.used;
    let top = a.top as usize;
    let want = (sp as usize) + (count as usize);
    if top != want {
        return Err(Failure::BaseNotObject);
    }
    if !are_objects(work, u.schemas, sp, count) {
        return Err(Failure::BaseNotObject);
    }
    if count == 0 {
        return Err(Failure::NoBases);
    }
    // the bases are a part of the stack, which is out of the work while that is lent to be written
    let stack = mem::replace(&mut work.stack, &mut []);
    let bases = words_from(stack, sp as usize, count as usize);
    let made = merge_object_schemas(origin, work, links, s, u, bases);
    work.stack = stack;
    made
}

// A plain object: its children in order, each list's numbers on the stack above those of the list before it.
#[cycle(array_derived_each_group_node_one_perhaps_plain)]
fn plain(
    origin: &Origin,
    work: &mut Work,
    links: &mut [u32],
    below: u32,
    s: u32,
    used: Used,
    sp: u32,
) -> Result<Made, Failure>
    requires { Ready origin.now.base used work.old.stack.now sp }
    ensures made { Builds origin.now work.old work.new links.old links.new used sp
        (λ C st. plain_at C (compile_at C below) st s)
        result }
    ensures lent { SameLent work.old work.new }
{
    let us = origin.base.schemas;
    let first = work.field(us, s, PROPERTIES);
    let count = work.field(us, s, PROPERTY_COUNT);
    let on = work.field(us, s, PATTERN_PROPERTIES);
    let patterns = work.field(us, s, PATTERN_COUNT);
    let item = work.field(us, s, ADDITIONAL);
    let name = work.field(us, s, NAMES);
    let a = each(
        origin,
        work,
        links,
        below,
        (first as usize) + 1,
        2,
        count,
        used,
        sp,
    )?;
    let b = each(
        origin,
        work,
        links,
        below,
        (on as usize) + 1,
        2,
        patterns,
        a.used,
        a.top,
    )?;
    let c = perhaps(origin, work, links, below, item, b.used, b.top)?;
    let d = perhaps(origin, work, links, below, name, c.used, b.top)?;
    // the stack is read while the schemas are written, so that it is out of the work meanwhile
    let stack = mem::replace(&mut work.stack, &mut []);
    let made = put_object(
        origin,
        work.schemas,
        stack,
        links,
        below,
        s,
        d.used,
        sp,
        a.top,
        c.rec,
        d.rec,
    );
    work.stack = stack;
    made
}

// A schema that may be absent.
#[cycle(array_derived_each_group_node_one_perhaps_plain)]
fn perhaps(
    origin: &Origin,
    work: &mut Work,
    links: &mut [u32],
    level: u32,
    s: u32,
    used: Used,
    sp: u32,
) -> Result<Made, Failure>
    requires { Ready origin.now.base used work.old.stack.now sp }
    ensures made { CompilesOrNone origin.now work.old work.new links.old links.new used sp
        (λ C st. perhaps_at (compile_at C level) st s)
        result }
    ensures lent { SameLent work.old work.new }
{
    if s == NONE {
        return Ok(Made {
            rec: s,
            fresh: false,
            used,
        });
    }
    one(origin, work, links, level, s, used, sp)
}

#[cycle(array_derived_each_group_node_one_perhaps_plain)]
fn array(
    origin: &Origin,
    work: &mut Work,
    links: &mut [u32],
    below: u32,
    s: u32,
    used: Used,
    sp: u32,
) -> Result<Made, Failure>
    requires { Ready origin.now.base used work.old.stack.now sp }
    ensures made { Builds origin.now work.old work.new links.old links.new used sp
        (λ C st. array_at C (compile_at C below) st s)
        result }
    ensures lent { SameLent work.old work.new }
{
    let us = origin.base.schemas;
    let kind = work.field(us, s, KIND);
    let note = work.field(us, s, NOTE);
    let items = work.field(us, s, ITEMS);
    let least = work.field(us, s, ARRAY_MINIMUM);
    let most = work.field(us, s, ARRAY_MAXIMUM);
    let unique = work.field(us, s, UNIQUE);
    let a = perhaps(origin, work, links, below, items, used, sp)?;
    let rec = [
        kind, note, a.rec, least, most, unique, 0, 0, 0, 0, 0, 0, 0, 0, 0, 0,
    ];
    finish(work.schemas, a.used, rec)
}
