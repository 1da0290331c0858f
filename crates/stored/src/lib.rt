// Words, parts and numbers of stored files. A read past the end gives 0, a write past it nothing.
#![tactic(auto)]

pub mod group;
pub mod input;
pub mod report;

ghost use Rattle.std.specs.Prelude.{◌≡◌, set};
ghost use Rattle.stored.specs.Stored.{place_after, word_behind, number_of, number_at, between};

// The place so many words further on; no file is so long that the sum is not taken.
pub fn after(at: usize, count: u32) -> usize
    ensures { result ≡ place_after at count }
{
    if at <= 4294967296 {
        return at + count as usize;
    }
    at
}

pub fn word(input: &[u32], at: usize, k: u32) -> u32
    ensures { result ≡ word_behind input.now at k }
{
    text::word(input, after(at, k))
}

pub fn pair(low: u32, high: u32) -> u64
    ensures { result ≡ number_of low high }
{
    high as u64 * 4294967296 + low as u64
}

// Two words as one number.
pub fn number(input: &[u32], at: usize) -> u64
    ensures { result ≡ number_at input.now at }
{
    pair(word(input, at, 0), word(input, at, 1))
}

// The elements between two places, or none where they run past the end.
#[tactic(auto, using(crate::proofs::Places::between_in, crate::proofs::Places::between_past, crate::proofs::Places::between_back))]
pub fn part<T>(elements: &[T], start: usize, end: usize) -> &[T]
    ensures { result.now ≡ between elements.now start end }
{
    elements.get(start..end).unwrap_or(&[])
}

// Stores an element at a place; a place past the end takes none.
pub fn put<T: Copy>(elements: &mut [T], at: usize, element: T)
    ensures { elements.new ≡ set elements.old at element }
{
    if at < elements.len() {
        elements[at] = element;
    }
}
