// Replays the stored joins of the oracle: the two statement sheets of each record are joined into a buffer of the
// stored length, and the answer, and what was written, are held against those stored. The layout of `joins.bin` is in
// oracle/README.md.
#![tactic(auto)]

mod sheets;

use sample::{NUMBER, Outcome, Tally};
use std::fs;
use std::io::Stdout;
use std::rt::Files;

const ROOM: usize = 262144;

// Before the first record stand a number that marks the file, and how many records there are.
const HEAD: usize = 2 * NUMBER;

// What is compared: the sheet, or the answer to a buffer a byte too short.
#[derive(Clone, Copy)]
enum What {
    Sheet,
    Short,
}

// The sheets that a record begins with.
#[derive(Clone, Copy)]
struct Pair<'a> {
    first: &'a [u8],
    second: &'a [u8],
}

fn main(rt: HostRuntime) {
    let mut buf = [0; ROOM];
    let n = read(&rt, "joins.bin", &mut buf);
    if n == 0 {
        print::put(rt.stdout(), b"no joins\n");
        return;
    }
    replay(rt.stdout(), print::part(&buf, n));
}

// How many bytes of a file were read. An absent file is taken as empty.
fn read(rt: &impl Files, name: &str, room: &mut [u8]) -> usize {
    match fs::open(rt, name) {
        Ok(mut file) => print::read_full(&mut file, room),
        Err(_) => 0,
    }
}

fn replay(out: Stdout, s: &[u8]) {
    let _ = print!(out; "records {}\nsheets", sample::number(s, NUMBER));
    walk(s, What::Sheet).show(out);
    print::put(out, b"short buffers");
    walk(s, What::Short).show(out);
}

// Every record in turn. They are counted from 1.
fn walk(s: &[u8], what: What) -> Tally {
    let mut tally = Tally::default();
    let mut at = sample::past(s, 0, HEAD);
    for k in 0..sample::number(s, NUMBER) {
        tally.count(k + 1, compare_record(s, at, what));
        at = after_record(s, at);
    }
    tally
}

// A record begins with the two sheets. Behind them stand the length of the buffer, and the outcome with its sheet.
fn compare_record(s: &[u8], at: usize, what: What) -> Outcome {
    let other = sample::after_bytes(s, at);
    let pair = Pair {
        first: sample::bytes(s, at),
        second: sample::bytes(s, other),
    };
    let lent = sample::after_bytes(s, other);
    match what {
        What::Sheet => sheets::compare(s, lent, pair),
        What::Short => sheets::compare_short(s, lent, pair),
    }
}

fn after_record(s: &[u8], at: usize) -> usize {
    let lent = sample::after_bytes(s, sample::after_bytes(s, at));
    let stored = sample::past(s, lent, NUMBER);
    let sheet = sample::after_outcome(s, stored);
    sample::past(s, sheet, sample::count_of(s, stored) as usize)
}
