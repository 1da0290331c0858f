// UTF-8 by RFC 3629: a walk along the octets that knows what the next one may be, and the count of code points.
ghost use Rattle.std.specs.Prelude.{◌≡◌, ◌≤◌, length};
ghost use Rattle.std.specs.List.{prefix_len};
ghost use Rattle.std.specs.Char.{is_ascii};
ghost use Rattle.text.specs.Utf8.{From, wait, lead_of, step_of, utf8_of, within, point_of, code_points_of};

// left more octets of a character are awaited, of which the next lies from lo to hi.
#[derive(Clone, Copy)]
struct Wait {
    left: u32,
    lo: u8,
    hi: u8,
}

fn awaits(left: u32, lo: u8, hi: u8) -> Wait
    ensures { result ≡ wait left lo hi }
{
    Wait { left, lo, hi }
}

// No octet lies from 1 to 0: whoever waits so waits for ever.
fn refused() -> Wait
    ensures { result ≡ wait 4 1 0 }
{
    awaits(4, 1, 0)
}

// What the first octet of three has after it: the grammar sets two of them apart.
#[tactic(auto, using(crate::proofs::Octet::leads, crate::proofs::Octet::lead_three))]
fn lead_of_three(b: u8) -> Wait
    requires { From 0xE0 0xEF b }
    ensures { result ≡ lead_of b }
{
    match b {
        0xe0 => awaits(2, 0xa0, 0xbf),
        0xed => awaits(2, 0x80, 0x9f),
        _ => awaits(2, 0x80, 0xbf),
    }
}

// What the first octet of four has after it: the grammar sets the first and the last of them apart.
#[tactic(auto, using(crate::proofs::Octet::leads))]
fn lead_of_four(b: u8) -> Wait
    requires { From 0xF0 0xF4 b }
    ensures { result ≡ lead_of b }
{
    match b {
        0xf0 => awaits(3, 0x90, 0xbf),
        0xf4 => awaits(3, 0x80, 0x8f),
        _ => awaits(3, 0x80, 0xbf),
    }
}

// What a first octet has after it: a row for each length, since a row for each alternative of the grammar costs an octet half as much again.
#[tactic(auto, using(crate::proofs::Octet::leads))]
fn lead(b: u8) -> Wait
    ensures { result ≡ lead_of b }
{
    match b {
        0x00..=0x7f => awaits(0, 0, 0),
        0xc2..=0xdf => awaits(1, 0x80, 0xbf),
        0xe0..=0xef => lead_of_three(b),
        0xf0..=0xf4 => lead_of_four(b),
        _ => refused(),
    }
}

// What is awaited after one octet more. It returns early: a result that is chosen costs more at each octet.
#[tactic(auto, unfolding(crate::specs::Utf8::step_of))]
fn step(w: Wait, b: u8) -> Wait
    ensures { result ≡ step_of w b }
{
    if w.left == 0 {
        return lead(b);
    }
    if b < w.lo || w.hi < b {
        return refused();
    }
    awaits(w.left - 1, 0x80, 0xbf)
}

// How many octets stand before the first that is not ASCII.
fn ascii(s: &[u8]) -> usize
    ensures within { result ≤ length s.now }
    ensures value { result ≡ prefix_len is_ascii s.now }
{
    s.iter().take_while(|b| b.is_ascii()).count()
}

// Whether s is UTF-8.
pub fn is_utf8(s: &[u8]) -> bool
    ensures { result ≡ utf8_of s.now }
{
    let mut w = awaits(0, 0, 0);
    // after each octet of ASCII in front the walk is where it began
    let rest = &s[ascii(s)..];
    for b in rest {
        w = step(w, *b);
    }
    w.left == 0
}

fn is_tail(b: u8) -> bool
    ensures { result ≡ within 0x80 0xBF b }
{
    matches!(b, 0x80..=0xbf)
}

// 1 for an octet that starts a code point, else 0.
#[tactic(auto, unfolding(crate::specs::Utf8::point_of))]
fn point(b: u8) -> usize
    ensures { result ≡ point_of b }
{
    usize::from(!is_tail(b))
}

// How many code points s has: an octet that is no tail starts one. Added up without a branch, many octets go in one step; counted by a filter
// they go one by one.
pub fn code_points(s: &[u8]) -> usize
    ensures { result ≡ code_points_of s.now }
{
    let mut n = 0;
    for b in s {
        n += point(*b);
    }
    n
}
