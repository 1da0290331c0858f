// A record as its words, in table order, for whoever appends one.
ghost use Rattle.std.specs.Prelude.{◌≡◌};
ghost use Rattle.layout.specs.Rows.{note_row, list_row, array_row, object_row};

use crate::words::NONE;

// An anyOf (7) or an allOf (8).
pub fn list_row(kind: u32, note: u32, first: u32, count: u32) -> [u32; 16]
    ensures { result ≡ list_row kind note first count }
{
    [kind, note, first, count, 0, 0, 0, 0, 0, 0, 0, 0, 0, 0, 0, 0]
}

pub fn array_row(note: u32, items: u32, minimum: u32, maximum: u32, unique: u32) -> [u32; 16]
    ensures { result ≡ array_row note items minimum maximum unique }
{
    [
        9, note, items, minimum, maximum, unique, 0, 0, 0, 0, 0, 0, 0, 0, 0, 0,
    ]
}

// An object without bases: what compiling makes.
pub fn object_row(
    note: u32,
    properties: u32,
    property_count: u32,
    patterns: u32,
    pattern_count: u32,
    additional: u32,
    required: u32,
    required_count: u32,
    minimum: u32,
    maximum: u32,
    closed: u32,
    names: u32,
    naming: u32,
) -> [u32; 16]
    ensures { result ≡ object_row note properties property_count patterns pattern_count additional
        required required_count minimum maximum closed names naming }
{
    [
        10,
        note,
        properties,
        property_count,
        patterns,
        pattern_count,
        additional,
        required,
        required_count,
        minimum,
        maximum,
        closed,
        names,
        naming,
        NONE,
        0,
    ]
}

pub fn note_row(
    id: u32,
    description: u32,
    documentation: u32,
    error_message: u32,
    hidden: u32,
    completions: u32,
    additional_completions: u32,
    tags: u32,
    case_detection: u32,
) -> [u32; 9]
    ensures { result ≡ note_row id description documentation error_message hidden completions
        additional_completions tags case_detection }
{
    [
        id,
        description,
        documentation,
        error_message,
        hidden,
        completions,
        additional_completions,
        tags,
        case_detection,
    ]
}
