// A string schema.
ghost use Rattle.std.specs.Prelude.{◌≡◌};
ghost use Rattle.layout.specs.Lent.{tables_of};
ghost use Rattle.text.specs.Text.{text_of};
ghost use Rattle.lookup.specs.Lookup.{answer_of_pattern};
ghost use Rattle.schema.specs.Look.{own_words};
ghost use Rattle.judge.specs.Judge.{length_in, answer_wrong, pattern_wrong, pattern_verdict, string_verdict};

use crate::Wrong;
use error::{Detail, Mode, Reason};
use layout::words::NONE;
use layout::{Tables, kind, node};
use text::Texts;

// A text's length: bytes in source mode, code points in standard mode.
pub fn length_in(mode: Mode, texts: &Texts, t: u32) -> u32
    ensures { result ≡ length_in mode (text_of texts.now.pool.now texts.now.records.now t) }
{
    let bytes = texts.text(t);
    match mode {
        Mode::Source => bytes.len() as u32,
        Mode::Standard => text::utf8::code_points(bytes) as u32,
    }
}

// What an answer of table 6 says.
#[tactic(auto, unfolding(crate::specs::Judge::answer_wrong))]
fn answer_wrong(n: u32, subject: u32, pattern: u32, a: u32) -> Result<(), Wrong>
    ensures { result ≡ answer_wrong n subject pattern a }
{
    match a {
        0 => Err(Wrong::Value {
            reason: Reason::PatternMismatch,
            node: n,
            detail: Detail::Pattern { subject, pattern },
        }),
        1 => Ok(()),
        _ => Err(Wrong::BadPattern),
    }
}

// No answer is 24.
fn pattern_wrong(n: u32, subject: u32, pattern: u32, answer: Option<u32>) -> Result<(), Wrong>
    ensures { result ≡ pattern_wrong n subject pattern answer }
{
    match answer {
        None => Err(Wrong::Unanswered),
        Some(a) => answer_wrong(n, subject, pattern, a),
    }
}

#[tactic(auto, unfolding(crate::specs::Judge::pattern_verdict))]
fn check_pattern(t: &Tables, pattern: u32, n: u32) -> Result<(), Wrong>
    ensures { let T = tables_of t.now in
        result ≡ pattern_verdict (answer_of_pattern T.pool T.texts T.patterns) T.nodes pattern n }
{
    if pattern == NONE {
        return Ok(());
    }
    let subject = t.node_a(n);
    pattern_wrong(
        n,
        subject,
        pattern,
        lookup::pattern_answer(t, pattern, subject),
    )
}

#[tactic(auto, using(crate::proofs::Strings::string_fits, crate::proofs::Strings::string_misfits, crate::proofs::Verdicts::first_fine, crate::proofs::Verdicts::first_wrong_lem))]
pub fn validate_string(mode: Mode, t: &Tables, n: u32, s: u32) -> Result<(), Wrong>
    ensures { let T = tables_of t.now in
        result ≡ string_verdict mode (answer_of_pattern T.pool T.texts T.patterns) T.pool T.texts
        T.nodes (own_words T.schemas s 2 14) n }
{
    crate::check_kind(t, node::STRING, kind::STRING, n)?;
    let count = length_in(mode, &t.texts, t.node_a(n));
    let least = t.string_minimum(s);
    let most = t.string_maximum(s);
    crate::check_count(Reason::StringLength, n, least, most, count)?;
    check_pattern(t, t.string_pattern(s), n)
}
