// A stored validation: whether the original was asked, the mode, node and schema, the words of both path buffers, the answer, and both
// paths.
ghost use Rattle.std.specs.Prelude.{◌≡◌, length};
ghost use Rattle.layout.specs.Lent.{tables_of};
ghost use Rattle.replay.specs.Calls.{
  validated_of,
  path_word,
  path_wrong,
  left_met,
  within_of,
  validation_of,
};

use crate::answer;
use crate::answer::Met;
use checker::flat::Flat;
use layout::Tables;

// Where the words of both buffers stand.
const INSTANCE_WORDS: u32 = 4;

const SCHEMA_WORDS: u32 = 5;

// Where the answer stands, and where it has the counts of both paths.
const ANSWER: u32 = 6;

const STEPS: u32 = 9;

const KINDS: u32 = 10;

// The words of a path buffer are judged as fields from here on.
const INSTANCE_FIELDS: u32 = 1000;

const SCHEMA_FIELDS: u32 = 2000;

// What the buffers hold before the call; no buffer is lent longer.
const GARBAGE: u32 = 2863311530;

const MOST_WORDS: usize = 512;

fn validate(input: &[u32], at: usize, t: &Tables, instance: &mut [u32], steps: &mut [u32]) -> Flat
    ensures { record { answer = result; instance = instance.new; schema = steps.new } ≡
        validated_of input.now at (tables_of t.now) (length instance.old) (length steps.old) }
{
    let node = stored::word(input, at, 2);
    let schema = stored::word(input, at, 3);
    match stored::word(input, at, 1) {
        0 => checker::qy_validate(t, node, schema, instance, steps),
        1 => checker::qy_validate_source(t, node, schema, instance, steps),
        _ => checker::qy_validate_standard(t, node, schema, instance, steps),
    }
}

// The word that a path buffer has to have: those of the path, then 0.
fn expected(input: &[u32], at: usize, count: u32, k: u32) -> u32
    ensures { result ≡ path_word input.now at count k }
{
    if k < count {
        return stored::word(input, at, k);
    }
    0
}

fn compare_path(
    call: u32,
    fields: u32,
    input: &[u32],
    at: usize,
    count: u32,
    path: &[u32],
    length: u32,
    before: u32,
) -> u32
    ensures { result ≡ path_wrong input.now at count path.now length before }
{
    let mut wrong = before;
    for k in 0..length {
        let field = fields.wrapping_add(k);
        wrong = answer::judge(
            call,
            field,
            expected(input, at, count, k),
            text::word(path, k as usize),
            wrong,
        );
    }
    wrong
}

// All that a call leaves: the answer, and both buffers to their ends.
fn compare(call: u32, input: &[u32], at: usize, found: Flat, instance: &[u32], steps: &[u32]) -> Met
    ensures { result ≡ left_met input.now at
        (record { answer = found; instance = instance.now; schema = steps.now }) }
{
    let answer_at = stored::after(at, ANSWER);
    let count = stored::word(input, answer_at, STEPS);
    let kinds = stored::word(input, answer_at, KINDS);
    let instance_at = stored::after(answer_at, answer::ANSWER_WORDS);
    let kinds_at = stored::after(stored::after(instance_at, count), count);
    let answered = answer::compare(call, input, answer_at, found, false);
    let walked = compare_path(
        call,
        INSTANCE_FIELDS,
        input,
        instance_at,
        count.wrapping_add(count),
        instance,
        stored::word(input, at, INSTANCE_WORDS),
        answered,
    );
    let length = stored::word(input, at, SCHEMA_WORDS);
    Met {
        wrong: compare_path(
            call,
            SCHEMA_FIELDS,
            input,
            kinds_at,
            kinds,
            steps,
            length,
            walked,
        ),
        after: stored::after(kinds_at, kinds),
    }
}

// The call over buffers of exactly these words.
fn judge(
    call: u32,
    input: &[u32],
    at: usize,
    t: &Tables,
    instance: &mut [u32],
    steps: &mut [u32],
) -> Met
    ensures { result ≡ left_met input.now at
        (validated_of input.now at (tables_of t.now) (length instance.old) (length steps.old)) }
{
    let found = validate(input, at, t, instance, steps);
    compare(call, input, at, found, instance, steps)
}

// The call over the first words of both buffers, as many as are stored.
fn run_within(
    call: u32,
    input: &[u32],
    at: usize,
    t: &Tables,
    instance: &mut [u32],
    steps: &mut [u32],
) -> Met
    ensures { result ≡ within_of input.now at (tables_of t.now) (length instance.old)
        (length steps.old) }
{
    let instance_end = text::wide(stored::word(input, at, INSTANCE_WORDS));
    let steps_end = text::wide(stored::word(input, at, SCHEMA_WORDS));
    if instance_end <= instance.len() && steps_end <= steps.len() {
        return judge(
            call,
            input,
            at,
            t,
            &mut instance[..instance_end],
            &mut steps[..steps_end],
        );
    }
    Met {
        wrong: answer::judge(call, INSTANCE_FIELDS, 0, GARBAGE, 0),
        after: 4294967297,
    }
}

pub fn run(call: u32, input: &[u32], at: usize, t: &Tables) -> Met
    ensures { result ≡ validation_of input.now at (tables_of t.now) }
{
    let mut instance = [GARBAGE; MOST_WORDS];
    let mut steps = [GARBAGE; MOST_WORDS];
    run_within(call, input, at, t, &mut instance, &mut steps)
}
