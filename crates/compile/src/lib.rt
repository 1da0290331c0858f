// Compiling: eager references resolved and bases merged, as new records of tables 3, 4 and 7.
#![tactic(auto)]

ghost use Rattle.std.specs.Prelude.{◌≡◌, ◌*◌, ◌≤◌};
ghost use Rattle.layout.specs.Layout.{tables};
ghost use Rattle.layout.specs.Lent.{tables_of};
ghost use Rattle.append.specs.Append.{cleared};
ghost use Rattle.compilation.specs.Entry.{used_fault, compile_of};
ghost use Rattle.compilation.specs.State.{source_of, state_of};
ghost use Rattle.compilation.specs.Table.{compile_at};
ghost use Rattle.derive.specs.Meets.{told, SameLent};
ghost use Rattle.compile.specs.Ended.{answered_of, compiled, ended_of};

use derive::{Made, Origin, Work};
use error::{Answer, Failure, Used};
use layout::{Tables, words};
use merge::first_words;
use tables::check;
use text::Texts;

// The check of the tables, where only the used records of 3, 4 and 7 count.
fn check_used(t: &Tables, used: Used) -> Result<(), Failure>
    ensures { result ≡ used_fault (tables_of t.now) used }
{
    let n = used.notes as usize;
    let s = used.schemas as usize;
    let l = used.links as usize;
    let notes_fit = check::used_size(t.note_count(), words::MOST_NOTES, n);
    let schemas_fit = check::used_size(t.schema_count(), words::MOST_SCHEMAS, s);
    let links_fit = check::used_size(t.links.len(), words::MOST_LINKS, l);
    check::check_sizes(t, notes_fit, schemas_fit, links_fit)?;
    let kept = Tables {
        notes: first_words(t.notes, n * words::NOTE_WORDS),
        schemas: first_words(t.schemas, s * words::SCHEMA_WORDS),
        links: first_words(t.links, l),
        ..*t
    };
    check::check_tables(&kept)
}

// Zeroes all room past the used records.
fn clear(work: &mut Work, links: &mut [u32], used: Used)
    ensures notes { work.new.notes.now ≡ cleared work.old.notes.now (used.notes * 9) }
    ensures schemas { work.new.schemas.now ≡ cleared work.old.schemas.now (used.schemas * 16) }
    ensures links { links.new ≡ cleared links.old used.links }
    ensures lent { SameLent work.old work.new }
{
    append::clear_from(work.notes, (used.notes as usize) * words::NOTE_WORDS);
    append::clear_from(work.schemas, (used.schemas as usize) * words::SCHEMA_WORDS);
    append::clear_from(links, used.links as usize);
}

// What stays in use: a refusal keeps nothing.
fn kept(made: Result<Made, Failure>, used: Used) -> Used
    ensures { result ≡ (told used made).used }
{
    match made {
        Ok(grown) => grown.used,
        Err(_) => used,
    }
}

fn answered(made: Result<Made, Failure>, used: Used) -> Answer
    ensures { result ≡ answered_of made used }
{
    match made {
        Ok(grown) => error::with_used(error::found(grown.rec), used),
        Err(failure) => error::with_used(error::plain(failure.number()), used),
    }
}

// The work, once the tables are sound: 64 visits may nest.
fn compile_sound(
    texts: &Texts,
    registry: &[u32],
    notes: &mut [u32],
    schemas: &mut [u32],
    links: &mut [u32],
    used: Used,
    schema: u32,
) -> Answer
    requires { used.schemas ≤ 4096 }
    ensures { let S = source_of texts.now.pool.now texts.now.records.now registry.now used
        notes.old schemas.old links.old in
        let out = compile_at S 64 (state_of used notes.old schemas.old links.old) schema in
        compiled result notes.new schemas.new links.new
        ≡ ended_of notes.old schemas.old links.old used out }
{
    let origin = Origin {
        texts: *texts,
        registry,
        base: used,
    };
    let mut stack = [0u32; 4096];
    let mut work = Work {
        notes,
        schemas,
        stack: &mut stack,
    };
    let made = build::one(&origin, &mut work, links, 64, schema, used, 0);
    let left = kept(made, used);
    clear(&mut work, links, left);
    answered(made, left)
}

// The tables come one by one, as the C interface lends them: three of them are written.
// A schema compiled. Bad tables and a wrong number write nothing; after any other answer all room past the used records is zero.
pub fn compile(
    pool: &[u8],
    texts: &[u32],
    nodes: &[u32],
    notes: &mut [u32],
    used_notes: u32,
    schemas: &mut [u32],
    used_schemas: u32,
    registry: &[u32],
    patterns: &[u32],
    links: &mut [u32],
    used_links: u32,
    numbers: &[u64],
    schema: u32,
) -> Answer
    ensures { let T = tables pool.now texts.now nodes.now notes.old schemas.old
        registry.now patterns.now links.old numbers.now in
        record { answer = result; notes = notes.new; schemas = schemas.new; links = links.new }
        ≡ compile_of T
        (record { notes = used_notes; schemas = used_schemas; links = used_links })
        schema }
{
    let used = Used {
        notes: used_notes,
        schemas: used_schemas,
        links: used_links,
    };
    let lent = Tables::new(
        pool, texts, nodes, notes, schemas, registry, patterns, links, numbers,
    );
    let checked = check_used(&lent, used);
    if let Err(failure) = checked {
        return error::with_used(error::failed(failure), used);
    }
    if used_schemas <= schema {
        return error::with_used(error::failed(Failure::WrongNumber), used);
    }
    let texts = Texts {
        pool,
        records: texts,
    };
    compile_sound(&texts, registry, notes, schemas, links, used, schema)
}
