// What a derived object takes from its bases, which are compiled, and from its own record.
#![tactic(auto)]

ghost use Rattle.std.specs.Prelude.{◌≡◌, ◌==◌, eqb};
ghost use Rattle.std.specs.List.{list_all};
ghost use Rattle.text.specs.Choice.{pick};
ghost use Rattle.layout.specs.Layout.{NONE, schema_kind, additional_properties};
ghost use Rattle.compilation.specs.Table.{all_objects, last_word, merged_note_in};
ghost use Rattle.inherit.specs.Carried.{Carried};

use joins::{any_closed, note_field};
use layout::rows::note_row;
use layout::schema::{
    additional_properties, naming_convention, object_closed, object_maximum, object_minimum,
    schema_kind,
};
use layout::words::NONE;
use layout::{kind, note};

// The words of a merged object that are neither its note nor a list.
#[derive(Clone, Copy)]
pub struct Scalars {
    pub minimum: u32,
    pub maximum: u32,
    pub closed: bool,
    pub naming: u32,
}

// Whether these records are all of one kind. Written straight into `objects`, its proof did not close.
fn all_of_kind(schemas: &[u32], bases: &[u32], kind: u32) -> bool
    ensures { result ≡ list_all (λ b. schema_kind schemas.now b == kind) bases.now }
{
    bases.iter().all(|base| schema_kind(schemas, *base) == kind)
}

// Whether these records are objects.
pub fn objects(schemas: &[u32], bases: &[u32]) -> bool
    ensures { result ≡ all_objects schemas.now bases.now }
{
    all_of_kind(schemas, bases, kind::OBJECT)
}

fn or_word(test: u32, a: u32, b: u32) -> u32
    ensures { result ≡ pick (eqb test NONE) a b }
{
    if test == NONE { a } else { b }
}

// Word j of the note of the last of these records whose word k is present, else d.
fn last_word(notes: &[u32], schemas: &[u32], bases: &[u32], k: u32, j: u32, d: u32) -> u32
    ensures { result ≡ last_word notes.now schemas.now k j d bases.now }
{
    let mut last = d;
    for base in bases {
        let test = note_field(notes, schemas, *base, k);
        let w = note_field(notes, schemas, *base, j);
        last = or_word(test, last, w);
    }
    last
}

// The note of the bases, later words over earlier ones; of the note of the derived record s the description.
pub fn merged_note(
    notes: &[u32],
    schemas: &[u32],
    bases: &[u32],
    own_notes: &[u32],
    own_schemas: &[u32],
    s: u32,
) -> [u32; 9]
    ensures { result
        ≡ merged_note_in own_notes.now own_schemas.now notes.now schemas.now s bases.now }
{
    let own = note_field(own_notes, own_schemas, s, note::DESCRIPTION);
    let last = |k: u32| last_word(notes, schemas, bases, k, k, NONE);
    note_row(
        NONE,
        or_word(own, last(note::DESCRIPTION), own),
        last(note::DOCUMENTATION),
        last(note::ERROR_MESSAGE),
        last(note::HIDDEN),
        last(note::COMPLETIONS),
        last(note::ADDITIONAL_COMPLETIONS),
        last(note::TAGS),
        last_word(notes, schemas, bases, note::TAGS, note::CASE_DETECTION, 0),
    )
}

// Limits and naming are the derived record's alone, whatever the bases have; closed is what any of them is.
pub fn merged_scalars(schemas: &[u32], bases: &[u32], own_schemas: &[u32], s: u32) -> Scalars
    ensures { Carried own_schemas.now s schemas.now bases.now result }
{
    Scalars {
        minimum: object_minimum(own_schemas, s),
        maximum: object_maximum(own_schemas, s),
        closed: any_closed(schemas, bases, object_closed(own_schemas, s) == 1),
        naming: naming_convention(own_schemas, s),
    }
}

// What the derived record s offers to a join: its additional schema; its names never count.
pub fn own_offer(own_schemas: &[u32], s: u32, names: bool) -> u32
    ensures { result ≡ pick names NONE (additional_properties own_schemas.now s) }
{
    if names {
        NONE
    } else {
        additional_properties(own_schemas, s)
    }
}
