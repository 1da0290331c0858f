// Appending to a lent table after its used words.
#![tactic(auto)]

ghost use Rattle.std.specs.Prelude.{◌≡◌};
ghost use Rattle.append.specs.Append.{appended, append_of, cleared};

// Appends the words of new after the used ones, if there is room for all of them.
pub fn append(words: &mut [u32], used: usize, limit: usize, new: &[u32]) -> bool
    ensures { appended result words.new ≡ append_of words.old used limit new.now }
{
    let room = limit.min(words.len());
    if used > room || room - used < new.len() {
        return false;
    }
    words[used..used + new.len()].copy_from_slice(new);
    true
}

// Zeroes all words after the used ones.
pub fn clear_from(words: &mut [u32], used: usize)
    ensures { words.new ≡ cleared words.old used }
{
    if used < words.len() {
        words[used..].fill(0);
    }
}
