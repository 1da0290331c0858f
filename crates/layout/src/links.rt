// Links and numbers by place; pairs of links: an object's entries (key node, value node), a schema's properties (text, schema).
ghost use Rattle.std.specs.Prelude.{◌≡◌, ◌+◌, get_or};
ghost use Rattle.layout.specs.Layout.{pair_key, pair_value};

use crate::Tables;

// The first word of pair k of a list of pairs.
pub fn pair_key(links: &[u32], first: u32, k: u32) -> u32
    ensures { result ≡ pair_key links.now first k }
{
    text::word(links, (first as usize) + (k as usize) * 2)
}

// The word beside it.
pub fn pair_value(links: &[u32], first: u32, k: u32) -> u32
    ensures { result ≡ pair_value links.now first k }
{
    text::word(links, (first as usize) + (k as usize) * 2 + 1)
}

impl Tables<'_> {
    // Link k of the list that begins at first.
    pub fn link(&self, first: u32, k: u32) -> u32
        ensures { result ≡ get_or self.now.links.now (first + k) 0 }
    {
        text::word(self.links, (first as usize) + (k as usize))
    }

    // The number at a place of table 8.
    pub fn number(&self, place: u32) -> u64
        ensures { result ≡ get_or self.now.numbers.now place 0 }
    {
        text::number_word(self.numbers, place as usize)
    }

    // The first word of pair k of a list of pairs.
    pub fn pair_key(&self, first: u32, k: u32) -> u32
        ensures { result ≡ pair_key self.now.links.now first k }
    {
        pair_key(self.links, first, k)
    }

    // The word beside it.
    pub fn pair_value(&self, first: u32, k: u32) -> u32
        ensures { result ≡ pair_value self.now.links.now first k }
    {
        pair_value(self.links, first, k)
    }
}
