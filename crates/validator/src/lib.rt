// Validation: a value against a schema.
#![tactic(auto)]

mod paths;
mod quick;
mod walk;

ghost use Rattle.std.specs.Prelude.{◌≡◌, length};
ghost use Rattle.layout.specs.Lent.{tables_of};
ghost use Rattle.error.specs.declared.Mode.TheVariants as mode_of;
ghost use Rattle.validator.specs.Validate.{validate_of};
ghost use Rattle.validator.specs.Met.{begun_of, Finished, Same};

use error::{Answer, Detail, Failure, Mode, NONE, Reason};
use layout::Tables;
use paths::{Paths, Stop};

// Answers 20, 21 and 22, in this order.
fn begin(
    t: &Tables,
    node: u32,
    schema: u32,
    instance_words: usize,
    schema_words: usize,
) -> Result<(), Failure>
    ensures { result ≡ begun_of (tables_of t.now) node schema instance_words schema_words }
{
    tables::check::check_tables(t)?;
    if t.node_count() <= (node as usize) {
        return Err(Failure::WrongNumber);
    }
    if t.schema_count() <= (schema as usize) {
        return Err(Failure::WrongNumber);
    }
    if instance_words < error::INSTANCE_WORDS || schema_words < error::SCHEMA_STEP_WORDS {
        return Err(Failure::ShortBuffer);
    }
    Ok(())
}

// The answer to what was found; what lies behind both paths is cleared.
fn finish(found: Result<(), Stop>, paths: &mut Paths) -> Answer
    ensures same { Same paths.old paths.new }
    ensures finished { Finished found paths.old.instance.now paths.new.instance.now
        paths.old.schema.now paths.new.schema.now result }
{
    match found {
        Ok(()) => {
            paths.clear(0, 0);
            error::plain(0)
        }
        Err(Stop::Refused(e)) => {
            paths.clear(e.steps, e.kinds);
            error::refusal(
                e.number, e.node, e.schema, e.hint, e.detail, e.steps, e.kinds,
            )
        }
        Err(Stop::Invalid(steps)) => {
            paths.clear(steps, 0);
            error::refusal(
                Reason::InvalidPattern.number(),
                NONE,
                NONE,
                NONE,
                Detail::Empty,
                steps,
                0,
            )
        }
        Err(Stop::Ended(number)) => {
            paths.clear(0, 0);
            error::plain(number)
        }
    }
}

// The answers before the work, then the work; either leaves zeros behind both paths.
fn validate_into(t: &Tables, mode: Mode, node: u32, schema: u32, paths: &mut Paths) -> Answer
    ensures same { Same paths.old paths.new }
    ensures validated { record
        { answer = result; instance = paths.new.instance.now; schema = paths.new.schema.now } ≡
        validate_of (tables_of t.now) mode node schema (length paths.old.instance.now)
        (length paths.old.schema.now) }
{
    let begun = begin(t, node, schema, paths.instance.len(), paths.schema.len());
    if let Err(failure) = begun {
        paths.clear(0, 0);
        return error::failed(failure);
    }
    let found = walk::first_visit(mode, t, paths, 64, node, schema);
    finish(found, paths)
}

// A value against a schema, in a mode. Both paths are left in the buffers, with zeros behind.
pub fn validate_mode(
    t: &Tables,
    mode: Mode,
    node: u32,
    schema: u32,
    ipath: &mut [u32],
    spath: &mut [u32],
) -> Answer
    ensures { record { answer = result; instance = ipath.new; schema = spath.new } ≡
        validate_of (tables_of t.now) mode node schema (length ipath.old) (length spath.old) }
{
    let mut paths = Paths {
        instance: ipath,
        schema: spath,
    };
    validate_into(t, mode, node, schema, &mut paths)
}

// The same in source mode.
pub fn validate(t: &Tables, node: u32, schema: u32, ipath: &mut [u32], spath: &mut [u32]) -> Answer
    ensures { record { answer = result; instance = ipath.new; schema = spath.new } ≡
        validate_of (tables_of t.now) mode_of.Source node schema (length ipath.old)
        (length spath.old) }
{
    validate_mode(t, Mode::Source, node, schema, ipath, spath)
}
