// Runs stored tables, good and damaged, through the check and compares with the stored answers; make.py has the list.
//
// The input is decimal numbers; all that stands between them is for the reader. First how many cases there are. A case is nine
// slices (pool, texts, nodes, notes, schemas, registry, patterns, links, numbers) and the answer: table and record, 0 and 0 where
// all are good. A slice is its length, then how many words repeat up to that length and these words, then how many patches
// there are and these, each a place and a word.
#![tactic(auto)]

use error::Failure;
use layout::Tables;
use stored::report;
use tables::check::check_tables;

const OUT: i32 = 1;

// The numbers of a text, one after the other; past the last each is 0.
#[derive(Drop)]
struct Numbers<'a> {
    rest: &'a [u8],
}

#[derive(Clone, Copy, PartialEq)]
struct Answer {
    table: u32,
    record: u32,
}

// The number with one digit more; no number of the input passes a word.
fn longer(value: u32, digit: u8) -> u32 {
    ((value as u64 * 10 + (digit % 16) as u64) % 4294967296) as u32
}

impl<'a> Numbers<'a> {
    fn take(&mut self) -> u32 {
        let mut value = 0;
        let mut begun = false;
        while let Some((byte, behind)) = self.rest.split_first() {
            if byte.is_ascii_digit() {
                value = longer(value, *byte);
                begun = true;
            } else if begun {
                return value;
            }
            self.rest = behind;
        }
        value
    }
}

fn read_words(numbers: &mut Numbers, into: &mut [u32], count: u32) {
    for i in 0..count {
        let word = numbers.take();
        stored::put(into, i as usize, word);
    }
}

fn repeat(words: &mut [u32], period: u32, until: u32) {
    for i in period..until {
        let word = text::word(words, (i - period) as usize);
        stored::put(words, i as usize, word);
    }
}

fn patch(numbers: &mut Numbers, words: &mut [u32], count: u32) {
    for _ in 0..count {
        let place = numbers.take();
        let word = numbers.take();
        stored::put(words, place as usize, word);
    }
}

// How long the next slice is.
fn slice(numbers: &mut Numbers, into: &mut [u32]) -> u32 {
    let length = numbers.take();
    let period = numbers.take();
    read_words(numbers, into, period);
    repeat(into, period, length);
    let patches = numbers.take();
    patch(numbers, into, patches);
    length
}

fn slice_at(numbers: &mut Numbers, buffer: &mut [u32], start: usize) -> u32 {
    if start <= buffer.len() {
        return slice(numbers, &mut buffer[start..]);
    }
    0
}

// The nine slices stand one after the other in one buffer: slice k ends at ends[k + 1].
fn slices(numbers: &mut Numbers, buffer: &mut [u32]) -> [usize; 10] {
    let mut ends = [0usize; 10];
    let mut end: usize = 0;
    for k in 1..10 {
        let length = slice_at(numbers, buffer, end);
        end = stored::after(end, length);
        ends[k] = end;
    }
    ends
}

fn narrow(words: &[u32], pool: &mut [u8]) {
    for (byte, word) in pool.iter_mut().zip(words) {
        *byte = (*word % 256) as u8;
    }
}

fn widen(words: &[u32], numbers: &mut [u64]) {
    for (number, word) in numbers.iter_mut().zip(words) {
        *number = u64::from(*word);
    }
}

fn answer_of(checked: Result<(), Failure>) -> Answer {
    match checked {
        Ok(()) => Answer {
            table: 0,
            record: 0,
        },
        Err(failure) => {
            let answer = error::failed(failure);
            Answer {
                table: answer.table,
                record: answer.place,
            }
        }
    }
}

fn find_answer(pool: &[u8], words: &[u32], numbers: &[u64], ends: [usize; 10]) -> Answer {
    let tables = Tables::new(
        pool,
        stored::part(words, ends[1], ends[2]),
        stored::part(words, ends[2], ends[3]),
        stored::part(words, ends[3], ends[4]),
        stored::part(words, ends[4], ends[5]),
        stored::part(words, ends[5], ends[6]),
        stored::part(words, ends[6], ends[7]),
        stored::part(words, ends[7], ends[8]),
        numbers,
    );
    answer_of(check_tables(&tables))
}

// The check's answer for slices that stand in one buffer.
fn find_all(words: &[u32], pool: &mut [u8], numbers: &mut [u64], ends: [usize; 10]) -> Answer {
    let bytes = stored::part(words, 0, ends[1]);
    let values = stored::part(words, ends[8], ends[9]);
    narrow(bytes, pool);
    widen(values, numbers);
    find_answer(
        text::part(pool, 0, bytes.len()),
        words,
        stored::part(numbers, 0, values.len()),
        ends,
    )
}

fn expected(numbers: &mut Numbers) -> Answer {
    let table = numbers.take();
    let record = numbers.take();
    Answer { table, record }
}

// Whether a case is answered as it has to be; where it is not, a line says so.
fn run_case(
    case: u32,
    text: &mut Numbers,
    words: &mut [u32],
    pool: &mut [u8],
    numbers: &mut [u64],
) -> bool {
    let ends = slices(text, words);
    let found = find_all(words, pool, numbers, ends);
    let expected = expected(text);
    if expected == found {
        return true;
    }
    io::write_all(OUT, b"case ");
    report::print(case, b": expected ");
    report::print(expected.table, b" ");
    report::print(expected.record, b", found ");
    report::print(found.table, b" ");
    report::print(found.record, b"\n");
    false
}

fn run_all(text: &[u8], words: &mut [u32], pool: &mut [u8], numbers: &mut [u64]) {
    let mut text = Numbers { rest: text };
    let cases = text.take();
    let mut wrong: u32 = 0;
    for i in 0..cases {
        if !run_case(i + 1, &mut text, words, pool, numbers) {
            wrong += 1;
        }
    }
    report::print(cases, b" cases, ");
    report::print(wrong, b" wrong\n");
}

fn main() {
    // In rows, since a check of one long row of 524,288 bytes runs out of stack.
    let mut rows = [[0u8; 4096]; 128];
    let mut words = [0u32; 262144];
    let mut pool = [0u8; 66560];
    let mut numbers = [0u64; 4608];
    let text = rows.as_flattened_mut();
    let n = io::read_full(0, text);
    run_all(&text[..n], &mut words, &mut pool, &mut numbers);
}
