// Whether bytes are ASCII alone: every part of them is then UTF-8.
#![tactic(auto)]

ghost use Rattle.std.specs.Prelude.{◌≡◌};
ghost use Rattle.ascii.specs.Ascii.{largest_of, ascii_of};

// The largest byte, or 0: a fold with no way out, so that the compiler can take many bytes a step.
fn largest(s: &[u8]) -> u8
    ensures { result ≡ largest_of s.now }
{
    s.iter().fold(0, |most, b| most.max(*b))
}

pub fn is_ascii(s: &[u8]) -> bool
    ensures { result ≡ ascii_of s.now }
{
    largest(s) < 0x80
}
