// Where each word of a schema record stands, kind by kind.
ghost use Rattle.std.specs.Prelude.{◌≡◌};
ghost use Rattle.layout.specs.Layout.{
  schema_word,
  schema_kind,
  schema_note,
  number_minimum,
  number_maximum,
  number_exclusive_minimum,
  number_exclusive_maximum,
  number_multiple,
  string_minimum,
  string_maximum,
  string_pattern,
  list_first,
  list_count,
  array_items,
  array_minimum,
  array_maximum,
  array_unique,
  properties_first,
  properties_count,
  pattern_properties_first,
  pattern_properties_count,
  additional_properties,
  required_first,
  required_count,
  object_minimum,
  object_maximum,
  object_closed,
  property_names,
  naming_convention,
  bases_first,
  bases_count,
  ref_text,
  ref_eager,
};

use crate::Tables;
use crate::words::SCHEMA_WORDS;

// Where the words stand that compiling reads by their place; a list is its first place and, in the next word, its count.
pub const KIND: u32 = 0;

pub const NOTE: u32 = 1;

pub const LIST: u32 = 2;

pub const ITEMS: u32 = 2;

pub const ARRAY_MINIMUM: u32 = 3;

pub const ARRAY_MAXIMUM: u32 = 4;

pub const UNIQUE: u32 = 5;

pub const PROPERTIES: u32 = 2;

pub const PATTERN_PROPERTIES: u32 = 4;

pub const ADDITIONAL: u32 = 6;

pub const REQUIRED: u32 = 7;

pub const OBJECT_MINIMUM: u32 = 9;

pub const OBJECT_MAXIMUM: u32 = 10;

pub const CLOSED: u32 = 11;

pub const NAMES: u32 = 12;

pub const NAMING: u32 = 13;

pub const BASES: u32 = 14;

pub const REF_TEXT: u32 = 2;

pub const REF_EAGER: u32 = 3;

pub fn schema_word(schemas: &[u32], s: u32, k: u32) -> u32
    ensures { result ≡ schema_word schemas.now s k }
{
    text::word(schemas, (s as usize) * SCHEMA_WORDS + (k as usize))
}

pub fn schema_kind(schemas: &[u32], s: u32) -> u32
    ensures { result ≡ schema_kind schemas.now s }
{
    schema_word(schemas, s, 0)
}

pub fn schema_note(schemas: &[u32], s: u32) -> u32
    ensures { result ≡ schema_note schemas.now s }
{
    schema_word(schemas, s, 1)
}

pub fn additional_properties(schemas: &[u32], s: u32) -> u32
    ensures { result ≡ additional_properties schemas.now s }
{
    schema_word(schemas, s, 6)
}

pub fn required_first(schemas: &[u32], s: u32) -> u32
    ensures { result ≡ required_first schemas.now s }
{
    schema_word(schemas, s, 7)
}

pub fn required_count(schemas: &[u32], s: u32) -> u32
    ensures { result ≡ required_count schemas.now s }
{
    schema_word(schemas, s, 8)
}

pub fn object_minimum(schemas: &[u32], s: u32) -> u32
    ensures { result ≡ object_minimum schemas.now s }
{
    schema_word(schemas, s, 9)
}

pub fn object_maximum(schemas: &[u32], s: u32) -> u32
    ensures { result ≡ object_maximum schemas.now s }
{
    schema_word(schemas, s, 10)
}

pub fn object_closed(schemas: &[u32], s: u32) -> u32
    ensures { result ≡ object_closed schemas.now s }
{
    schema_word(schemas, s, 11)
}

pub fn property_names(schemas: &[u32], s: u32) -> u32
    ensures { result ≡ property_names schemas.now s }
{
    schema_word(schemas, s, 12)
}

pub fn naming_convention(schemas: &[u32], s: u32) -> u32
    ensures { result ≡ naming_convention schemas.now s }
{
    schema_word(schemas, s, 13)
}

// All of them in the tables of a call; compiling reads a table that grows, and the words above.
impl Tables<'_> {
    pub fn schema_word(&self, s: u32, k: u32) -> u32
        ensures { result ≡ schema_word self.now.schemas.now s k }
    {
        schema_word(self.schemas, s, k)
    }

    pub fn schema_kind(&self, s: u32) -> u32
        ensures { result ≡ schema_kind self.now.schemas.now s }
    {
        schema_kind(self.schemas, s)
    }

    pub fn schema_note(&self, s: u32) -> u32
        ensures { result ≡ schema_note self.now.schemas.now s }
    {
        schema_note(self.schemas, s)
    }

    pub fn number_minimum(&self, s: u32) -> u32
        ensures { result ≡ number_minimum self.now.schemas.now s }
    {
        self.schema_word(s, 2)
    }

    pub fn number_maximum(&self, s: u32) -> u32
        ensures { result ≡ number_maximum self.now.schemas.now s }
    {
        self.schema_word(s, 3)
    }

    pub fn number_exclusive_minimum(&self, s: u32) -> u32
        ensures { result ≡ number_exclusive_minimum self.now.schemas.now s }
    {
        self.schema_word(s, 4)
    }

    pub fn number_exclusive_maximum(&self, s: u32) -> u32
        ensures { result ≡ number_exclusive_maximum self.now.schemas.now s }
    {
        self.schema_word(s, 5)
    }

    pub fn number_multiple(&self, s: u32) -> u32
        ensures { result ≡ number_multiple self.now.schemas.now s }
    {
        self.schema_word(s, 6)
    }

    pub fn string_minimum(&self, s: u32) -> u32
        ensures { result ≡ string_minimum self.now.schemas.now s }
    {
        self.schema_word(s, 2)
    }

    pub fn string_maximum(&self, s: u32) -> u32
        ensures { result ≡ string_maximum self.now.schemas.now s }
    {
        self.schema_word(s, 3)
    }

    pub fn string_pattern(&self, s: u32) -> u32
        ensures { result ≡ string_pattern self.now.schemas.now s }
    {
        self.schema_word(s, 4)
    }

    pub fn list_first(&self, s: u32) -> u32
        ensures { result ≡ list_first self.now.schemas.now s }
    {
        self.schema_word(s, 2)
    }

    pub fn list_count(&self, s: u32) -> u32
        ensures { result ≡ list_count self.now.schemas.now s }
    {
        self.schema_word(s, 3)
    }

    pub fn array_items(&self, s: u32) -> u32
        ensures { result ≡ array_items self.now.schemas.now s }
    {
        self.schema_word(s, 2)
    }

    pub fn array_minimum(&self, s: u32) -> u32
        ensures { result ≡ array_minimum self.now.schemas.now s }
    {
        self.schema_word(s, 3)
    }

    pub fn array_maximum(&self, s: u32) -> u32
        ensures { result ≡ array_maximum self.now.schemas.now s }
    {
        self.schema_word(s, 4)
    }

    pub fn array_unique(&self, s: u32) -> u32
        ensures { result ≡ array_unique self.now.schemas.now s }
    {
        self.schema_word(s, 5)
    }

    pub fn properties_first(&self, s: u32) -> u32
        ensures { result ≡ properties_first self.now.schemas.now s }
    {
        self.schema_word(s, 2)
    }

    pub fn properties_count(&self, s: u32) -> u32
        ensures { result ≡ properties_count self.now.schemas.now s }
    {
        self.schema_word(s, 3)
    }

    pub fn pattern_properties_first(&self, s: u32) -> u32
        ensures { result ≡ pattern_properties_first self.now.schemas.now s }
    {
        self.schema_word(s, 4)
    }

    pub fn pattern_properties_count(&self, s: u32) -> u32
        ensures { result ≡ pattern_properties_count self.now.schemas.now s }
    {
        self.schema_word(s, 5)
    }

    pub fn additional_properties(&self, s: u32) -> u32
        ensures { result ≡ additional_properties self.now.schemas.now s }
    {
        additional_properties(self.schemas, s)
    }

    pub fn required_first(&self, s: u32) -> u32
        ensures { result ≡ required_first self.now.schemas.now s }
    {
        required_first(self.schemas, s)
    }

    pub fn required_count(&self, s: u32) -> u32
        ensures { result ≡ required_count self.now.schemas.now s }
    {
        required_count(self.schemas, s)
    }

    pub fn object_minimum(&self, s: u32) -> u32
        ensures { result ≡ object_minimum self.now.schemas.now s }
    {
        object_minimum(self.schemas, s)
    }

    pub fn object_maximum(&self, s: u32) -> u32
        ensures { result ≡ object_maximum self.now.schemas.now s }
    {
        object_maximum(self.schemas, s)
    }

    pub fn object_closed(&self, s: u32) -> u32
        ensures { result ≡ object_closed self.now.schemas.now s }
    {
        object_closed(self.schemas, s)
    }

    pub fn property_names(&self, s: u32) -> u32
        ensures { result ≡ property_names self.now.schemas.now s }
    {
        property_names(self.schemas, s)
    }

    pub fn naming_convention(&self, s: u32) -> u32
        ensures { result ≡ naming_convention self.now.schemas.now s }
    {
        naming_convention(self.schemas, s)
    }

    pub fn bases_first(&self, s: u32) -> u32
        ensures { result ≡ bases_first self.now.schemas.now s }
    {
        self.schema_word(s, 14)
    }

    pub fn bases_count(&self, s: u32) -> u32
        ensures { result ≡ bases_count self.now.schemas.now s }
    {
        self.schema_word(s, 15)
    }

    pub fn ref_text(&self, s: u32) -> u32
        ensures { result ≡ ref_text self.now.schemas.now s }
    {
        self.schema_word(s, 2)
    }

    pub fn ref_eager(&self, s: u32) -> u32
        ensures { result ≡ ref_eager self.now.schemas.now s }
    {
        self.schema_word(s, 3)
    }
}
