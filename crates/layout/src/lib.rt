// How a record of each table looks: widths, limits, and a name for each word. Nothing above this crate knows a place or a width.
#![tactic(auto)]

pub mod kind;
pub mod links;
pub mod node;
pub mod note;
pub mod rows;
pub mod schema;
pub mod words;

ghost use Rattle.std.specs.Prelude.{◌≡◌};
ghost use Rattle.layout.specs.Layout.{tables};
ghost use Rattle.layout.specs.Lent.{tables_of};

use text::Texts;

// What a call is lent: the texts with their pool, and seven further tables.
#[derive(Clone, Copy)]
pub struct Tables<'a> {
    pub texts: Texts<'a, 'a>,
    pub nodes: &'a [u32],
    pub notes: &'a [u32],
    pub schemas: &'a [u32],
    pub registry: &'a [u32],
    pub patterns: &'a [u32],
    pub links: &'a [u32],
    pub numbers: &'a [u64],
}

impl<'a> Tables<'a> {
    // The tables as the C interface lends them, by document 01's order.
    pub fn new(
        pool: &'a [u8],
        texts: &'a [u32],
        nodes: &'a [u32],
        notes: &'a [u32],
        schemas: &'a [u32],
        registry: &'a [u32],
        patterns: &'a [u32],
        links: &'a [u32],
        numbers: &'a [u64],
    ) -> Self
        ensures { tables_of result ≡ tables pool.now texts.now nodes.now notes.now schemas.now
            registry.now patterns.now links.now numbers.now }
    {
        Tables {
            texts: Texts {
                pool,
                records: texts,
            },
            nodes,
            notes,
            schemas,
            registry,
            patterns,
            links,
            numbers,
        }
    }
}
