// The C boundary: each export calls the function of its name in `checker`. include/quarto_yaml.h is its other side. The nine tables
// come as slices, as that interface lends them, and are one value from here on.
#![tactic(auto)]

ghost use Rattle.std.specs.Prelude.{◌≡◌, length};
ghost use Rattle.layout.specs.Layout.{tables};
ghost use Rattle.navigate.specs.Navigate.{navigate_of};
ghost use Rattle.checker.specs.Flat.{flat_of};
ghost use Rattle.checker.specs.Span.{span_of};
ghost use Rattle.checker.specs.Validated.{left_of};
ghost use Rattle.checker.specs.Compiled.{left_tables_of};
ghost use Rattle.compilation.specs.Entry.{compile_of};
ghost use Rattle.validator.specs.Validate.{validate_of};
ghost use Rattle.error.specs.declared.Mode.TheVariants as mode_of;

use checker::flat::Flat;
use checker::span::Span;
use layout::Tables;
use text::Texts;

#[unsafe(no_mangle)]
pub extern "C" fn qy_navigate(
    pool: &[u8],
    texts: &[u32],
    nodes: &[u32],
    notes: &[u32],
    schemas: &[u32],
    registry: &[u32],
    patterns: &[u32],
    links: &[u32],
    numbers: &[u64],
    node: u32,
    path: &[u32],
    key_wanted: bool,
) -> Flat
    ensures { let T = tables pool.now texts.now nodes.now notes.now schemas.now
        registry.now patterns.now links.now numbers.now in
        result ≡ flat_of (navigate_of T node path.now key_wanted) }
{
    let tables = Tables::new(
        pool, texts, nodes, notes, schemas, registry, patterns, links, numbers,
    );
    checker::qy_navigate(&tables, node, path, key_wanted)
}

#[unsafe(no_mangle)]
pub extern "C" fn qy_text(pool: &[u8], texts: &[u32], n: u32) -> Span
    ensures { result ≡ span_of pool.now texts.now n }
{
    let texts = Texts {
        pool,
        records: texts,
    };
    checker::qy_text(&texts, n)
}

// A value against a schema; no mode means source mode.
#[unsafe(no_mangle)]
pub extern "C" fn qy_validate(
    pool: &[u8],
    texts: &[u32],
    nodes: &[u32],
    notes: &[u32],
    schemas: &[u32],
    registry: &[u32],
    patterns: &[u32],
    links: &[u32],
    numbers: &[u64],
    node: u32,
    schema: u32,
    instance: &mut [u32],
    steps: &mut [u32],
) -> Flat
    ensures { let T = tables pool.now texts.now nodes.now notes.now schemas.now
        registry.now patterns.now links.now numbers.now in
        record { answer = result; instance = instance.new; schema = steps.new } ≡
        left_of (validate_of T mode_of.Source node schema (length instance.old) (length steps.old)) }
{
    let tables = Tables::new(
        pool, texts, nodes, notes, schemas, registry, patterns, links, numbers,
    );
    checker::qy_validate(&tables, node, schema, instance, steps)
}

// The same, in source mode by name.
#[unsafe(no_mangle)]
pub extern "C" fn qy_validate_source(
    pool: &[u8],
    texts: &[u32],
    nodes: &[u32],
    notes: &[u32],
    schemas: &[u32],
    registry: &[u32],
    patterns: &[u32],
    links: &[u32],
    numbers: &[u64],
    node: u32,
    schema: u32,
    instance: &mut [u32],
    steps: &mut [u32],
) -> Flat
    ensures { let T = tables pool.now texts.now nodes.now notes.now schemas.now
        registry.now patterns.now links.now numbers.now in
        record { answer = result; instance = instance.new; schema = steps.new } ≡
        left_of (validate_of T mode_of.Source node schema (length instance.old) (length steps.old)) }
{
    let tables = Tables::new(
        pool, texts, nodes, notes, schemas, registry, patterns, links, numbers,
    );
    checker::qy_validate_source(&tables, node, schema, instance, steps)
}

// The same, in standard mode.
#[unsafe(no_mangle)]
pub extern "C" fn qy_validate_standard(
    pool: &[u8],
    texts: &[u32],
    nodes: &[u32],
    notes: &[u32],
    schemas: &[u32],
    registry: &[u32],
    patterns: &[u32],
    links: &[u32],
    numbers: &[u64],
    node: u32,
    schema: u32,
    instance: &mut [u32],
    steps: &mut [u32],
) -> Flat
    ensures { let T = tables pool.now texts.now nodes.now notes.now schemas.now
        registry.now patterns.now links.now numbers.now in
        record { answer = result; instance = instance.new; schema = steps.new } ≡
        left_of (validate_of T mode_of.Standard node schema (length instance.old)
        (length steps.old)) }
{
    let tables = Tables::new(
        pool, texts, nodes, notes, schemas, registry, patterns, links, numbers,
    );
    checker::qy_validate_standard(&tables, node, schema, instance, steps)
}

// A schema compiled: its record and those that it needs stand behind the used records of tables 3, 4 and 7.
#[unsafe(no_mangle)]
pub extern "C" fn qy_compile(
    pool: &[u8],
    texts: &[u32],
    nodes: &[u32],
    notes: &mut [u32],
    used_notes: u32,
    schemas: &mut [u32],
    used_schemas: u32,
    registry: &[u32],
    patterns: &[u32],
    links: &mut [u32],
    used_links: u32,
    numbers: &[u64],
    schema: u32,
) -> Flat
    ensures { let T = tables pool.now texts.now nodes.now notes.old schemas.old
        registry.now patterns.now links.old numbers.now in
        record { answer = result; notes = notes.new; schemas = schemas.new; links = links.new } ≡
        left_tables_of (compile_of T
        (record { notes = used_notes; schemas = used_schemas; links = used_links }) schema) }
{
    checker::qy_compile(
        pool,
        texts,
        nodes,
        notes,
        used_notes,
        schemas,
        used_schemas,
        registry,
        patterns,
        links,
        used_links,
        numbers,
        schema,
    )
}
