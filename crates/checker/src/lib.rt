// The calls of the C boundary, which `checker_c` exports: thin functions over the public calls.
#![tactic(auto)]

pub mod flat;
pub mod span;

ghost use Rattle.std.specs.Prelude.{◌≡◌, length};
ghost use Rattle.layout.specs.Layout.{tables};
ghost use Rattle.layout.specs.Lent.{tables_of};
ghost use Rattle.navigate.specs.Navigate.{navigate_of};
ghost use Rattle.checker.specs.Flat.{flat_of};
ghost use Rattle.checker.specs.Span.{span_of};
ghost use Rattle.checker.specs.Validated.{left_of};
ghost use Rattle.checker.specs.Compiled.{left_tables_of};
ghost use Rattle.compilation.specs.Entry.{compile_of};
ghost use Rattle.validator.specs.Validate.{validate_of};
ghost use Rattle.error.specs.declared.Mode.TheVariants as mode_of;

use error::Mode;
use flat::Flat;
use layout::Tables;
use span::Span;
use text::Texts;

pub fn qy_navigate(t: &Tables, node: u32, path: &[u32], key_wanted: bool) -> Flat
    ensures { result ≡ flat_of (navigate_of (tables_of t.now) node path.now key_wanted) }
{
    Flat::from(navigate::navigate(t, node, path, key_wanted))
}

pub fn qy_text(texts: &Texts, n: u32) -> Span
    ensures { result ≡ span_of texts.now.pool.now texts.now.records.now n }
{
    span::text_span(texts, n)
}

// A value against a schema; no mode means source mode.
pub fn qy_validate(
    t: &Tables,
    node: u32,
    schema: u32,
    instance: &mut [u32],
    steps: &mut [u32],
) -> Flat
    ensures { record { answer = result; instance = instance.new; schema = steps.new } ≡
        left_of (validate_of (tables_of t.now) mode_of.Source node schema (length instance.old)
        (length steps.old)) }
{
    Flat::from(validator::validate(t, node, schema, instance, steps))
}

// The same, in source mode by name.
pub fn qy_validate_source(
    t: &Tables,
    node: u32,
    schema: u32,
    instance: &mut [u32],
    steps: &mut [u32],
) -> Flat
    ensures { record { answer = result; instance = instance.new; schema = steps.new } ≡
        left_of (validate_of (tables_of t.now) mode_of.Source node schema (length instance.old)
        (length steps.old)) }
{
    Flat::from(validator::validate_mode(t, Mode::Source, node, schema, instance, steps))
}

// The same, in standard mode.
pub fn qy_validate_standard(
    t: &Tables,
    node: u32,
    schema: u32,
    instance: &mut [u32],
    steps: &mut [u32],
) -> Flat
    ensures { record { answer = result; instance = instance.new; schema = steps.new } ≡
        left_of (validate_of (tables_of t.now) mode_of.Standard node schema (length instance.old)
        (length steps.old)) }
{
    Flat::from(validator::validate_mode(t, Mode::Standard, node, schema, instance, steps))
}

// A schema compiled: its record and those that it needs stand behind the used records of tables 3, 4 and 7.
pub fn qy_compile(
    pool: &[u8],
    texts: &[u32],
    nodes: &[u32],
    notes: &mut [u32],
    used_notes: u32,
    schemas: &mut [u32],
    used_schemas: u32,
    registry: &[u32],
    patterns: &[u32],
    links: &mut [u32],
    used_links: u32,
    numbers: &[u64],
    schema: u32,
) -> Flat
    ensures { record {
      answer = result;
      notes = notes.new;
      schemas = schemas.new;
      links = links.new;
    } ≡ left_tables_of (compile_of
        (tables pool.now texts.now nodes.now notes.old schemas.old registry.now patterns.now
        links.old numbers.now)
        (record { notes = used_notes; schemas = used_schemas; links = used_links }) schema) }
{
    Flat::from(compile::compile(
        pool,
        texts,
        nodes,
        notes,
        used_notes,
        schemas,
        used_schemas,
        registry,
        patterns,
        links,
        used_links,
        numbers,
        schema,
    ))
}
