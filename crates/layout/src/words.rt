// Widths, limits, and where each word of a node, note, registry entry and pattern answer stands.
ghost use Rattle.std.specs.Prelude.{◌≡◌, ◌<◌};
ghost use Rattle.layout.specs.Layout.{
  node_word,
  node_kind,
  node_a,
  node_b,
  node_c,
  note_word,
  note_id,
  note_description,
  note_documentation,
  note_error_message,
  note_hidden,
  note_completions,
  note_additional_completions,
  note_tags,
  note_case_detection,
  registry_words,
  pattern_words,
  registry_word,
  entry_text,
  entry_schema,
  pattern_word,
  pattern_text,
  subject_text,
  pattern_answer,
  node_count,
  note_count,
  schema_count,
  entry_count,
  pattern_count,
};

use crate::Tables;
pub use text::NONE;

// Words per record; a text's are `text`'s.
pub const NODE_WORDS: usize = 4;

pub const NOTE_WORDS: usize = 9;

pub const SCHEMA_WORDS: usize = 16;

pub const REGISTRY_WORDS: usize = 2;

pub const PATTERN_WORDS: usize = 3;

// Most bytes, most records.
pub const MOST_BYTES: usize = 65536;

pub const MOST_TEXTS: usize = 4096;

pub const MOST_NODES: usize = 4096;

pub const MOST_NOTES: usize = 1024;

pub const MOST_SCHEMAS: usize = 4096;

pub const MOST_ENTRIES: usize = 256;

pub const MOST_PATTERNS: usize = 4096;

pub const MOST_LINKS: usize = 16384;

pub const MOST_NUMBERS: usize = 4096;

pub fn note_word(notes: &[u32], n: u32, k: u32) -> u32
    ensures { result ≡ note_word notes.now n k }
{
    text::word(notes, (n as usize) * NOTE_WORDS + (k as usize))
}

pub fn entry_count(registry: &[u32]) -> usize
    ensures { result ≡ entry_count registry.now }
{
    registry.len() / REGISTRY_WORDS
}

fn registry_word(registry: &[u32], i: usize, k: usize) -> u32
    requires { k < registry_words }
    ensures { result ≡ registry_word registry.now i k }
{
    if i < entry_count(registry) {
        return registry[i * REGISTRY_WORDS + k];
    }
    0
}

pub fn entry_text(registry: &[u32], i: usize) -> u32
    ensures { result ≡ entry_text registry.now i }
{
    registry_word(registry, i, 0)
}

pub fn entry_schema(registry: &[u32], i: usize) -> u32
    ensures { result ≡ entry_schema registry.now i }
{
    registry_word(registry, i, 1)
}

impl Tables<'_> {
    pub fn node_count(&self) -> usize
        ensures { result ≡ node_count self.now.nodes.now }
    {
        self.nodes.len() / NODE_WORDS
    }

    pub fn note_count(&self) -> usize
        ensures { result ≡ note_count self.now.notes.now }
    {
        self.notes.len() / NOTE_WORDS
    }

    pub fn schema_count(&self) -> usize
        ensures { result ≡ schema_count self.now.schemas.now }
    {
        self.schemas.len() / SCHEMA_WORDS
    }

    pub fn entry_count(&self) -> usize
        ensures { result ≡ entry_count self.now.registry.now }
    {
        entry_count(self.registry)
    }

    pub fn pattern_count(&self) -> usize
        ensures { result ≡ pattern_count self.now.patterns.now }
    {
        self.patterns.len() / PATTERN_WORDS
    }

    pub fn node_word(&self, n: u32, k: u32) -> u32
        ensures { result ≡ node_word self.now.nodes.now n k }
    {
        text::word(self.nodes, (n as usize) * NODE_WORDS + (k as usize))
    }

    pub fn node_kind(&self, n: u32) -> u32
        ensures { result ≡ node_kind self.now.nodes.now n }
    {
        self.node_word(n, 0)
    }

    pub fn node_a(&self, n: u32) -> u32
        ensures { result ≡ node_a self.now.nodes.now n }
    {
        self.node_word(n, 1)
    }

    pub fn node_b(&self, n: u32) -> u32
        ensures { result ≡ node_b self.now.nodes.now n }
    {
        self.node_word(n, 2)
    }

    pub fn node_c(&self, n: u32) -> u32
        ensures { result ≡ node_c self.now.nodes.now n }
    {
        self.node_word(n, 3)
    }

    pub fn note_word(&self, n: u32, k: u32) -> u32
        ensures { result ≡ note_word self.now.notes.now n k }
    {
        note_word(self.notes, n, k)
    }

    pub fn note_id(&self, n: u32) -> u32
        ensures { result ≡ note_id self.now.notes.now n }
    {
        self.note_word(n, 0)
    }

    pub fn note_description(&self, n: u32) -> u32
        ensures { result ≡ note_description self.now.notes.now n }
    {
        self.note_word(n, 1)
    }

    pub fn note_documentation(&self, n: u32) -> u32
        ensures { result ≡ note_documentation self.now.notes.now n }
    {
        self.note_word(n, 2)
    }

    pub fn note_error_message(&self, n: u32) -> u32
        ensures { result ≡ note_error_message self.now.notes.now n }
    {
        self.note_word(n, 3)
    }

    pub fn note_hidden(&self, n: u32) -> u32
        ensures { result ≡ note_hidden self.now.notes.now n }
    {
        self.note_word(n, 4)
    }

    pub fn note_completions(&self, n: u32) -> u32
        ensures { result ≡ note_completions self.now.notes.now n }
    {
        self.note_word(n, 5)
    }

    pub fn note_additional_completions(&self, n: u32) -> u32
        ensures { result ≡ note_additional_completions self.now.notes.now n }
    {
        self.note_word(n, 6)
    }

    pub fn note_tags(&self, n: u32) -> u32
        ensures { result ≡ note_tags self.now.notes.now n }
    {
        self.note_word(n, 7)
    }

    pub fn note_case_detection(&self, n: u32) -> u32
        ensures { result ≡ note_case_detection self.now.notes.now n }
    {
        self.note_word(n, 8)
    }

    pub fn entry_text(&self, i: usize) -> u32
        ensures { result ≡ entry_text self.now.registry.now i }
    {
        entry_text(self.registry, i)
    }

    pub fn entry_schema(&self, i: usize) -> u32
        ensures { result ≡ entry_schema self.now.registry.now i }
    {
        entry_schema(self.registry, i)
    }

    fn pattern_word(&self, i: usize, k: usize) -> u32
        requires { k < pattern_words }
        ensures { result ≡ pattern_word self.now.patterns.now i k }
    {
        if i < self.pattern_count() {
            return self.patterns[i * PATTERN_WORDS + k];
        }
        0
    }

    pub fn pattern_text(&self, i: usize) -> u32
        ensures { result ≡ pattern_text self.now.patterns.now i }
    {
        self.pattern_word(i, 0)
    }

    pub fn subject_text(&self, i: usize) -> u32
        ensures { result ≡ subject_text self.now.patterns.now i }
    {
        self.pattern_word(i, 1)
    }

    pub fn pattern_answer(&self, i: usize) -> u32
        ensures { result ≡ pattern_answer self.now.patterns.now i }
    {
        self.pattern_word(i, 2)
    }
}
