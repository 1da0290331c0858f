// Runs stored calls again and compares each with its stored answer.
//
// The input is stored files, one behind the other; host/REPLAY.md has their format. They were written by
// `host/record navigate 1 4000 FILE`, `host/record damaged-navigate 1 1500 FILE`, `host/record json 1 2000 FILE` and
// `host/record validate 1 2000 FILE`. The 5,503 navigations and 2,016 validations have the second judge's answers (host/model); of
// 3,018 navigations and 783 validations, marked 1, the original was asked too, and agreed. The 2,016 pairs of nodes between them have
// the original's answer: whether the two are equal as JSON, by its own conversion. The used counts of a call that is no compile have
// to be NONE, whatever is stored.
#![tactic(auto)]

ghost use Rattle.std.specs.Prelude.{◌≡◌};
ghost use Rattle.layout.specs.Lent.{tables_of};
ghost use Rattle.stored.specs.Group.{unpacked_of};
ghost use Rattle.replay.specs.Calls.{group_tables};
ghost use Rattle.replay.specs.Run.{counted_of, failed_of, placed_of, ReadOn, call_of, group_of, is_file};

mod answer;
mod equality;
mod navigation;
mod validation;

use answer::Met;
use layout::Tables;
use stored::group::Group;
use stored::report;

const OUT: i32 = 1;

// The first two words of a stored file, and how many words stand before its groups.
const MARK: u32 = 1348031057;

const FORMAT: u32 = 1;

const HEADER_WORDS: u32 = 8;

const NAVIGATE: u32 = 0;

const VALIDATE: u32 = 1;

const EQUAL: u32 = 3;

const MOST_FILES: u32 = 16;

// How far the run is: calls met, calls answered otherwise, and the words that are at hand.
#[derive(Clone, Copy)]
struct Run {
    calls: u32,
    wrong: u32,
    at: usize,
    end: usize,
}

// A run that cannot go on: its place is past the end.
#[tactic(auto, unfolding(crate::specs::Run::failed_of))]
fn fails(run: Run, line: &[u8]) -> Run
    ensures { result ≡ failed_of run }
{
    io::write_all(OUT, line);
    Run {
        wrong: run.wrong.wrapping_add(1),
        at: 4294967296,
        end: 0,
        ..run
    }
}

fn refilled(run: Run, chunk: &mut [u8], input: &mut [u32]) -> Run
    ensures { ReadOn input.old input.new run result }
{
    let held = stored::input::refill(chunk, input, run.at, run.end);
    Run {
        at: held.at,
        end: held.end,
        ..run
    }
}

#[tactic(auto, unfolding(crate::specs::Run::placed_of))]
fn placed(run: Run, at: usize) -> Run
    ensures { result ≡ placed_of run at }
{
    Run { at, ..run }
}

// A run behind one more call.
#[tactic(auto, unfolding(crate::specs::Run::counted_of))]
fn counted(run: Run, met: Met) -> Run
    ensures { result ≡ counted_of run met }
{
    Run {
        calls: run.calls.wrapping_add(1),
        wrong: run.wrong.wrapping_add(met.wrong),
        at: met.after,
        ..run
    }
}

// The tables of a group, as one value.
fn group_tables<'a>(
    group: Group,
    words: &'a [u32],
    pool: &'a [u8],
    numbers: &'a [u64],
) -> Tables<'a>
    ensures { tables_of result ≡ group_tables group words.now pool.now numbers.now }
{
    let ends = group.ends;
    Tables::new(
        text::part(pool, 0, group.bytes),
        stored::part(words, ends[0], ends[1]),
        stored::part(words, ends[1], ends[2]),
        stored::part(words, ends[2], ends[3]),
        stored::part(words, ends[3], ends[4]),
        stored::part(words, ends[4], ends[5]),
        stored::part(words, ends[5], ends[6]),
        stored::part(words, ends[6], ends[7]),
        stored::part(numbers, 0, group.numbers),
    )
}

// One call: by its number in the file's header.
fn run_call(call: u32, input: &[u32], run: Run, t: &Tables) -> Run
    ensures { result ≡ call_of call input.now run (tables_of t.now) }
{
    let calls = run.calls.wrapping_add(1);
    match call {
        NAVIGATE => counted(run, navigation::run(calls, input, run.at, t)),
        VALIDATE => counted(run, validation::run(calls, input, run.at, t)),
        EQUAL => counted(run, equality::run(calls, input, run.at, t)),
        _ => fails(run, b"a call of no known number\n"),
    }
}

fn run_group(
    call: u32,
    input: &[u32],
    before: Run,
    words: &mut [u32],
    pool: &mut [u8],
    numbers: &mut [u64],
) -> Run
    ensures { result ≡ group_of call input.now before
        (unpacked_of input.now before.at words.old pool.old numbers.old) }
{
    let group = stored::group::unpack(input, before.at, words, pool, numbers);
    let count = stored::word(input, group.after, 0);
    let mut run = placed(before, stored::after(group.after, 1));
    let t = group_tables(group, words, pool, numbers);
    for _ in 0..count {
        run = run_call(call, input, run, &t);
    }
    run
}

fn run_file(
    before: Run,
    chunk: &mut [u8],
    input: &mut [u32],
    words: &mut [u32],
    pool: &mut [u8],
    numbers: &mut [u64],
) -> Run {
    let call = stored::word(input, before.at, 2);
    let count = stored::word(input, before.at, 3);
    let mut run = placed(before, stored::after(before.at, HEADER_WORDS));
    for _ in 0..count {
        run = refilled(run, chunk, input);
        run = run_group(
            call,
            stored::part(input, 0, run.end),
            run,
            words,
            pool,
            numbers,
        );
    }
    refilled(run, chunk, input)
}

#[tactic(auto, unfolding(crate::specs::Run::is_file))]
fn is_file(input: &[u32], at: usize) -> bool
    ensures { result ≡ is_file input.now at }
{
    stored::word(input, at, 0) == MARK && stored::word(input, at, 1) == FORMAT
}

fn run_next(
    run: Run,
    chunk: &mut [u8],
    input: &mut [u32],
    words: &mut [u32],
    pool: &mut [u8],
    numbers: &mut [u64],
) -> Run {
    if is_file(input, run.at) {
        return run_file(run, chunk, input, words, pool, numbers);
    }
    fails(run, b"no stored file where one has to start\n")
}

fn run_all(
    chunk: &mut [u8],
    input: &mut [u32],
    words: &mut [u32],
    pool: &mut [u8],
    numbers: &mut [u64],
) {
    let nothing = Run {
        calls: 0,
        wrong: 0,
        at: 0,
        end: 0,
    };
    let mut run = refilled(nothing, chunk, input);
    for _ in 0..MOST_FILES {
        if run.at >= run.end {
            break;
        }
        run = run_next(run, chunk, input, words, pool, numbers);
    }
    report::print(run.calls, b" calls, ");
    report::print(run.wrong, b" wrong\n");
}

fn main() {
    let mut chunk = [0u8; 65536];
    let mut input = [0u32; 65536];
    let mut words = [0u32; 131072];
    let mut pool = [0u8; 66560];
    let mut numbers = [0u64; 4608];
    run_all(&mut chunk, &mut input, &mut words, &mut pool, &mut numbers);
}
