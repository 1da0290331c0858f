// The visit and its parts. Each level writes its own step at its own place, on the way out and only while its trail is logged.
// Mode, tables, paths and trail go side by side: the definitions take them apart, and one value of all four would keep the paths borrowed.
// What a member asks is one predicate by name: it relates trail, level, paths and pool, of which none holds the others.
ghost use Rattle.std.specs.Prelude.{◌≡◌, ◌+◌, ◌-◌, Err};
ghost use Rattle.layout.specs.Lent.{tables_of};
ghost use Rattle.layout.specs.Layout.{schema_kind};
ghost use Rattle.schema.specs.Look.{slice};
ghost use Rattle.validator.specs.declared.paths.Stop.TheVariants.{Refused};
ghost use Rattle.validator.specs.Validate.{visit_of};
ghost use Rattle.validator.specs.Met.{
  lastly,
  chosen_in,
  any_in,
  all_in,
  array_in,
  entry_in,
  object_whole,
  ref_in,
  part_in,
  inner_in,
  Meets,
  Room,
  Deep,
  Late,
  Stepping,
  Inside,
  Later,
  Same,
  start,
};

use crate::paths::{Paths, Refusal, Stop, Trail, judged, refuse};
use crate::quick;
use error::{Detail, Failure, Mode, NONE, Reason};
use layout::{Tables, kind, node};

// What an object's entry with a string key is asked: to meet a schema, not to be there, or nothing. Three cases, so no `Option`.
#[derive(Clone, Copy)]
pub enum Choice {
    Part(u32),
    Closed,
    Skip,
}

// The property of that name, else closed, else additional.
fn choose(t: &Tables, s: u32, text: u32) -> Choice
    ensures { let T = tables_of t.now in
        result ≡ chosen_in T.pool T.texts T.schemas T.links s text }
{
    let first = t.properties_first(s);
    let count = t.properties_count(s);
    match lookup::property(t, first, count, text) {
        Some(part) => Choice::Part(part),
        None => {
            if t.object_closed(s) == 1 {
                return Choice::Closed;
            }
            let more = t.additional_properties(s);
            if more == NONE {
                return Choice::Skip;
            }
            Choice::Part(more)
        }
    }
}

// The alternatives after the first error, which is `best`: nothing is written any more.
#[cycle(visits)]
fn any_later(
    mode: Mode,
    t: &Tables,
    paths: &mut Paths,
    trail: Trail,
    best: Refusal,
    below: u32,
    node: u32,
    first: u32,
    from: u32,
    count: u32,
) -> Result<(), Stop>
    requires { let T = tables_of t.now in Late trail below from count paths.old T.pool }
    ensures later { let T = tables_of t.now in
        Later (lastly (visit_of T mode below node) (Err (Refused best))
        (slice T.links (first + from) (count - from))) paths.old.instance.now paths.new.instance.now
        paths.old.schema.now paths.new.schema.now result }
    ensures same { Same paths.old paths.new }
{
    for i in from..count {
        let part = t.link(first, i);
        let Err(stop) = visit(
            mode,
            t,
            paths,
            Trail {
                log: false,
                ..trail
            },
            below,
            node,
            part,
        ) else {
            return Ok(());
        };
        if let Stop::Ended(_) = stop {
            return Err(stop);
        }
    }
    Err(Stop::Refused(best))
}

// The first alternative that accepts, else the first error.
#[cycle(visits)]
fn validate_any_of(
    mode: Mode,
    t: &Tables,
    paths: &mut Paths,
    trail: Trail,
    below: u32,
    node: u32,
    s: u32,
) -> Result<(), Stop>
    requires { let T = tables_of t.now in Deep trail below paths.old T.pool }
    ensures met { Meets (any_in (tables_of t.now) mode below node s) trail paths.old paths.new
        result }
    ensures same { Same paths.old paths.new }
{
    let first = t.list_first(s);
    let count = t.list_count(s);
    for i in 0..count {
        let part = t.link(first, i);
        match visit(mode, t, paths, trail, below, node, part) {
            Ok(()) => return Ok(()),
            Err(Stop::Refused(best)) => {
                return any_later(
                    mode,
                    t,
                    paths,
                    trail,
                    best,
                    below,
                    node,
                    first,
                    i + 1,
                    count,
                );
            }
            Err(Stop::Invalid(_)) => {}
            Err(Stop::Ended(number)) => return Err(Stop::Ended(number)),
        }
    }
    Err(Stop::from(Failure::NoAlternative))
}

// The first part that does not accept.
#[cycle(visits)]
fn validate_all_of(
    mode: Mode,
    t: &Tables,
    paths: &mut Paths,
    trail: Trail,
    below: u32,
    node: u32,
    s: u32,
) -> Result<(), Stop>
    requires { let T = tables_of t.now in Deep trail below paths.old T.pool }
    ensures met { Meets (all_in (tables_of t.now) mode below node s) trail paths.old paths.new
        result }
    ensures same { Same paths.old paths.new }
{
    let first = t.list_first(s);
    let count = t.list_count(s);
    for i in 0..count {
        let part = t.link(first, i);
        visit(mode, t, paths, trail, below, node, part)?;
    }
    Ok(())
}

// A part of the value one step down: a key's text (tag 0) or an index (tag 1).
#[cycle(visits)]
fn visit_part(
    mode: Mode,
    t: &Tables,
    paths: &mut Paths,
    trail: Trail,
    below: u32,
    tag: u32,
    word: u32,
    node: u32,
    s: u32,
) -> Result<(), Stop>
    requires { let T = tables_of t.now in Stepping trail below tag paths.old T.pool }
    ensures met { Meets (part_in (tables_of t.now) mode below node s tag word) trail paths.old
        paths.new result }
    ensures same { Same paths.old paths.new }
{
    let Err(stop) = visit(
        mode,
        t,
        paths,
        Trail {
            steps: trail.steps + 1,
            ..trail
        },
        below,
        node,
        s,
    ) else {
        return Ok(());
    };
    paths.push_step(trail.steps, tag, word, stop.leaves_step(trail.log));
    Err(stop)
}

// An array's own words, then its items in order.
#[cycle(visits)]
fn validate_array(
    mode: Mode,
    t: &Tables,
    paths: &mut Paths,
    trail: Trail,
    below: u32,
    node: u32,
    s: u32,
) -> Result<(), Stop>
    requires { let T = tables_of t.now in Deep trail below paths.old T.pool }
    ensures met { Meets (array_in (tables_of t.now) mode below node s) trail paths.old paths.new
        result }
    ensures same { Same paths.old paths.new }
{
    let v = listed::check_array(mode, t, node, s);
    judged(t, v, s, trail)?;
    let items = t.array_items(s);
    if items == NONE {
        return Ok(());
    }
    let first = t.node_a(node);
    let count = t.node_b(node);
    for i in 0..count {
        let part = t.link(first, i);
        if quick::accepts(mode, t, below, part, items) {
            continue;
        }
        visit_part(mode, t, paths, trail, below, 1, i, part, items)?;
    }
    Ok(())
}

// Entry k of an object; a key that is no string is skipped even where the object is closed.
#[cycle(visits)]
fn validate_entry(
    mode: Mode,
    t: &Tables,
    paths: &mut Paths,
    trail: Trail,
    below: u32,
    node: u32,
    s: u32,
    k: u32,
) -> Result<(), Stop>
    requires { let T = tables_of t.now in Deep trail below paths.old T.pool }
    ensures met { Meets (entry_in (tables_of t.now) mode below node s k) trail paths.old paths.new
        result }
    ensures same { Same paths.old paths.new }
{
    let key = lookup::entry_key(t, node, k);
    if t.node_kind(key) != node::STRING {
        return Ok(());
    }
    let text = t.node_a(key);
    match choose(t, s, text) {
        Choice::Skip => Ok(()),
        Choice::Closed => Err(refuse(
            t,
            Reason::UnknownProperty,
            node,
            s,
            Detail::Key(text),
            trail,
        )),
        Choice::Part(part) => {
            let value = lookup::entry_value(t, node, k);
            if quick::accepts(mode, t, below, value, part) {
                return Ok(());
            }
            visit_part(mode, t, paths, trail, below, 0, text, value, part)
        }
    }
}

// What an object is asked before its entries, then these in order.
#[cycle(visits)]
fn validate_object(
    mode: Mode,
    t: &Tables,
    paths: &mut Paths,
    trail: Trail,
    below: u32,
    node: u32,
    s: u32,
) -> Result<(), Stop>
    requires { let T = tables_of t.now in Deep trail below paths.old T.pool }
    ensures met { Meets (object_whole (tables_of t.now) mode below node s) trail paths.old paths.new
        result }
    ensures same { Same paths.old paths.new }
{
    let v = objects::check_object(t, node, s);
    judged(t, v, s, trail)?;
    let count = t.node_b(node);
    for k in 0..count {
        validate_entry(mode, t, paths, trail, below, node, s, k)?;
    }
    Ok(())
}

// The schema that the registry has under a ref's name.
#[cycle(visits)]
fn reference(
    mode: Mode,
    t: &Tables,
    paths: &mut Paths,
    trail: Trail,
    below: u32,
    node: u32,
    s: u32,
) -> Result<(), Stop>
    requires { let T = tables_of t.now in Deep trail below paths.old T.pool }
    ensures met { Meets (ref_in (tables_of t.now) mode below node s) trail paths.old paths.new
        result }
    ensures same { Same paths.old paths.new }
{
    let name = t.ref_text(s);
    match lookup::resolve(&t.texts, t.registry, name) {
        Some(target) => visit(mode, t, paths, trail, below, node, target),
        None => Err(refuse(
            t,
            Reason::UnresolvedReference,
            node,
            s,
            Detail::Reference(name),
            trail,
        )),
    }
}

// A visit by the schema's kind, without its own step.
#[cycle(visits)]
fn inner(
    mode: Mode,
    t: &Tables,
    paths: &mut Paths,
    trail: Trail,
    below: u32,
    node: u32,
    s: u32,
    kind: u32,
) -> Result<(), Stop>
    requires { let T = tables_of t.now in
        Inside trail below paths.old T.pool kind (schema_kind T.schemas s) }
    ensures met { Meets (inner_in (tables_of t.now) mode below node s) trail paths.old paths.new
        result }
    ensures same { Same paths.old paths.new }
{
    match kind {
        kind::BOOLEAN => judged(t, judge::validate_boolean(t, node), s, trail),
        kind::NUMBER => judged(t, judge::numeric::validate_number(t, node, s), s, trail),
        kind::STRING => judged(
            t,
            judge::string::validate_string(mode, t, node, s),
            s,
            trail,
        ),
        kind::NULL => judged(t, judge::validate_null(t, node), s, trail),
        kind::ENUM => judged(t, listed::validate_enum(mode, t, node, s), s, trail),
        kind::ANY_OF => validate_any_of(mode, t, paths, trail, below, node, s),
        kind::ALL_OF => validate_all_of(mode, t, paths, trail, below, node, s),
        kind::ARRAY => validate_array(mode, t, paths, trail, below, node, s),
        kind::OBJECT => validate_object(mode, t, paths, trail, below, node, s),
        _ => Ok(()),
    }
}

// A visit of a value by a schema: one level. A ref has no step of its own.
#[cycle(visits)]
pub fn visit(
    mode: Mode,
    t: &Tables,
    paths: &mut Paths,
    trail: Trail,
    level: u32,
    node: u32,
    s: u32,
) -> Result<(), Stop>
    requires { let T = tables_of t.now in Room trail level paths.old T.pool }
    ensures met { Meets (visit_of (tables_of t.now) mode level node s) trail paths.old paths.new
        result }
    ensures same { Same paths.old paths.new }
{
    if level == 0 {
        return Err(Stop::from(Failure::TooDeep));
    }
    let below = level - 1;
    let kind = t.schema_kind(s);
    if kind > kind::OBJECT {
        return reference(mode, t, paths, trail, below, node, s);
    }
    let Err(stop) = inner(
        mode,
        t,
        paths,
        Trail {
            kinds: trail.kinds + 1,
            ..trail
        },
        below,
        node,
        s,
        kind,
    ) else {
        return Ok(());
    };
    paths.push_kind(trail.kinds, kind, stop.leaves_kind(trail.log));
    Err(stop)
}

// The visit that a call begins with; most are accepted at once.
pub fn first_visit(
    mode: Mode,
    t: &Tables,
    paths: &mut Paths,
    level: u32,
    node: u32,
    s: u32,
) -> Result<(), Stop>
    requires { let T = tables_of t.now in Room start level paths.old T.pool }
    ensures met { Meets (visit_of (tables_of t.now) mode level node s) start paths.old paths.new
        result }
    ensures same { Same paths.old paths.new }
{
    if quick::accepts(mode, t, level, node, s) {
        return Ok(());
    }
    let trail = Trail {
        log: true,
        steps: 0,
        kinds: 0,
    };
    visit(mode, t, paths, trail, level, node, s)
}
