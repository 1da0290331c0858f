// What a visit found, and the steps that it leaves in the path buffers on its way out.
ghost use Rattle.std.specs.Prelude.{◌≡◌, ◌+◌, ◌*◌, ◌<◌, length, Err};
ghost use Rattle.layout.specs.Lent.{tables_of};
ghost use Rattle.text.specs.Choice.{both};
ghost use Rattle.error.specs.Answers.{reason_number};
ghost use Rattle.layout.specs.Layout.{schema_note};
ghost use Rattle.schema.specs.Look.{note_at};
ghost use Rattle.validator.specs.Outcome.{hint_of, refused, made, verdict};
ghost use Rattle.validator.specs.Met.{told, leaves_step, leaves_kind, mark_in, pair_in, Cleared, Same};

use error::{Detail, Failure, NONE, Reason};
use judge::Wrong;
use layout::Tables;

// How far a visit has come: whether steps are written, and how many either path has so far.
#[derive(Clone, Copy)]
pub struct Trail {
    pub log: bool,
    pub steps: u32,
    pub kinds: u32,
}

// An error, with how many steps each path has in all; its number is the definition's, which `Reason` gives.
#[derive(Clone, Copy)]
pub struct Refusal {
    pub number: u32,
    pub node: u32,
    pub schema: u32,
    pub hint: u32,
    pub detail: Detail,
    pub steps: u32,
    pub kinds: u32,
}

// Why a visit does not accept: an invalid pattern leaves no error, only its instance path; 23, 24 and 25 end everything.
// These stand by number, as the definitions and the theorems over them have them (`ended 23`).
#[derive(Clone, Copy)]
pub enum Stop {
    Refused(Refusal),
    Invalid(u32),
    Ended(u32),
}

impl Stop {
    // Whether an instance step is left behind.
    pub fn leaves_step(self, log: bool) -> bool
        ensures { result ≡ both log (leaves_step (Err self)) }
    {
        log && !matches!(self, Stop::Ended(_))
    }

    // Whether a schema step is left behind; an invalid pattern has none.
    pub fn leaves_kind(self, log: bool) -> bool
        ensures { result ≡ both log (leaves_kind (Err self)) }
    {
        log && matches!(self, Stop::Refused(_))
    }
}

// A failure ends everything, by the number that the definitions give it.
impl From<Failure> for Stop {
    ghost use Rattle.error.specs.Answers.{number_of};
    ghost use Rattle.validator.specs.declared.paths.Stop.TheVariants.{Ended};

    ghost from_gives = { λ failure stop. stop ≡ Ended (number_of failure) };

    fn from(failure: Failure) -> Stop {
        Stop::Ended(failure.number())
    }
}

// The error message of a schema record, or NONE.
fn hint(t: &Tables, s: u32) -> u32
    ensures { let T = tables_of t.now in
        result ≡ hint_of (note_at T.notes (schema_note T.schemas s)) }
{
    let note = t.schema_note(s);
    if note == NONE {
        return NONE;
    }
    t.note_error_message(note)
}

// An error of the schema s itself.
pub fn refuse(t: &Tables, reason: Reason, node: u32, s: u32, detail: Detail, trail: Trail) -> Stop
    ensures { let T = tables_of t.now in let note = note_at T.notes (schema_note T.schemas s) in
        Err result ≡ told (refused (made (reason_number reason) node s note detail)) trail.steps
        trail.kinds }
{
    let hint = hint(t, s);
    Stop::Refused(Refusal {
        number: reason.number(),
        node,
        schema: s,
        hint,
        detail,
        steps: trail.steps,
        kinds: trail.kinds,
    })
}

// What a verdict of the schema s leaves; the hint is looked up only where it refuses.
pub fn judged(t: &Tables, v: Result<(), Wrong>, s: u32, trail: Trail) -> Result<(), Stop>
    ensures { let T = tables_of t.now in let note = note_at T.notes (schema_note T.schemas s) in
        result ≡ told (verdict v s note) trail.steps trail.kinds }
{
    let Err(wrong) = v else {
        return Ok(());
    };
    Err(match wrong {
        Wrong::Value {
            reason,
            node,
            detail,
        } => refuse(t, reason, node, s, detail, trail),
        Wrong::BadPattern => Stop::Invalid(trail.steps),
        Wrong::Unanswered => Stop::from(Failure::NoPatternAnswer),
    })
}

// Zeroes a buffer from a place on. `append::clear_from` says it of whole lists; here each place is spoken of, and a bridge between the
// two would be longer than this loop.
fn clear(buf: &mut [u32], from: usize)
    ensures { Cleared from buf.old buf.new }
{
    for i in from..buf.len() {
        buf[i] = 0;
    }
}

// Both paths: an instance step takes two words, a schema step one.
#[derive(Drop)]
pub struct Paths<'a> {
    pub instance: &'a mut [u32],
    pub schema: &'a mut [u32],
}

impl<'a> Paths<'a> {
    // A schema step at its place. Whether it is written is a parameter: a branch around the call would split every goal after it.
    pub fn push_kind(&mut self, at: u32, kind: u32, on: bool)
        requires { at < length self.old.schema.now }
        ensures kind { self.new.schema.now ≡ mark_in on self.old.schema.now at kind }
        ensures same { Same self.old self.new }
        ensures steps { self.new.instance.now ≡ self.old.instance.now }
    {
        if on {
            let i = at as usize;
            self.schema[i] = kind;
        }
    }

    // An instance step at its place.
    pub fn push_step(&mut self, at: u32, tag: u32, word: u32, on: bool)
        requires { at * 2 + 1 < length self.old.instance.now }
        ensures step { self.new.instance.now ≡ pair_in on self.old.instance.now at tag word }
        ensures same { Same self.old self.new }
        ensures kinds { self.new.schema.now ≡ self.old.schema.now }
    {
        if on {
            let i = (at as usize) * 2;
            let j = i + 1;
            self.instance[j] = word;
            self.instance[i] = tag;
        }
    }

    // Zeros behind so many steps of each.
    pub fn clear(&mut self, steps: u32, kinds: u32)
        ensures same { Same self.old self.new }
        ensures instance { Cleared (steps * 2) self.old.instance.now self.new.instance.now }
        ensures schema { Cleared kinds self.old.schema.now self.new.schema.now }
    {
        clear(self.instance, (steps as usize) * 2);
        clear(self.schema, kinds as usize);
    }
}
