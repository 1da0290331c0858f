// Reading a stored file through a buffer of words.
ghost use Rattle.std.specs.Prelude.{◌≡◌, ◌+◌, ◌/◌, ◌≤◌, length};
ghost use Rattle.stored.specs.Input.{word_of, word_at, words_put, room_for, moved, Behind, Refilled};

use crate::put;

const IN: i32 = 0;

// No group takes more words.
const GROUP_WORDS: usize = 32768;

// The words that are read and not run yet: those from at to end.
#[derive(Clone, Copy)]
pub struct Held {
    pub at: usize,
    pub end: usize,
}

fn word_of(a: u8, b: u8, c: u8, d: u8) -> u32
    ensures { result ≡ word_of a b c d }
{
    u32::from_le_bytes([a, b, c, d])
}

fn word_at(bytes: &[u8], i: usize) -> u32
    ensures { result ≡ word_at bytes.now i }
{
    if i < bytes.len() / 4 {
        return word_of(
            bytes[4 * i],
            bytes[4 * i + 1],
            bytes[4 * i + 2],
            bytes[4 * i + 3],
        );
    }
    0
}

// Writes the words that bytes hold, low byte first, from a place on.
fn put_words(bytes: &[u8], into: &mut [u32], from: usize)
    requires { from + length bytes.now / 4 ≤ length into.old }
    ensures { into.new ≡ words_put bytes.now from into.old }
{
    for i in 0..bytes.len() / 4 {
        put(into, from + i, word_at(bytes, i));
    }
}

fn has_room(whole: usize, end: usize, bytes: usize) -> bool
    ensures { result ≡ room_for whole end bytes }
{
    end <= whole && bytes / 4 <= whole - end
}

// Reads chunks of the input behind the words that are at hand, while there is room, and answers where they end.
fn read_words(chunk: &mut [u8], into: &mut [u32], from: usize) -> usize
    ensures { Behind into.old into.new from result }
{
    let mut behind = from;
    for _ in 0..into.len() {
        if !has_room(into.len(), behind, chunk.len()) {
            return behind;
        }
        let n = io::read_full(IN, chunk);
        if n == 0 {
            return behind;
        }
        put_words(&chunk[..n], into, behind);
        behind += n / 4;
    }
    behind
}

// Moves so many words to the front.
fn move_to_front(words: &mut [u32], from: usize, count: usize)
    requires { from + count ≤ length words.old }
    ensures { words.new ≡ moved words.old from count }
{
    words.copy_within(from..from + count, 0);
}

// Sees that a whole group is at hand, where the input has one; a place past its end stays there.
pub fn refill(chunk: &mut [u8], input: &mut [u32], at: usize, end: usize) -> Held
    ensures { Refilled input.old input.new at end result }
{
    if at > end || end > input.len() {
        return Held { at, end };
    }
    let count = end - at;
    if count >= GROUP_WORDS {
        return Held { at, end };
    }
    move_to_front(input, at, count);
    Held {
        at: 0,
        end: read_words(chunk, input, count),
    }
}
