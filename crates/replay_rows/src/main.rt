// Replays the stored rows of the oracle: each comma-separated text is given to both operations on such texts, and the
// answers, and what was written, are held against those stored. The layout of `rows.bin` is in oracle/README.md.
#![tactic(auto)]

mod lines;
mod sheets;

use sample::{NUMBER, Tally};
use std::fs;
use std::io::Stdout;

const ROOM: usize = 262144;

// Before the first record stand a number that marks the file, and how many records there are.
const HEAD: usize = 2 * NUMBER;

// What is compared.
#[derive(Clone, Copy)]
enum What {
    Sheets,
    Short,
    Lines,
}

// What a record begins with.
#[derive(Clone, Copy)]
struct Asked<'a> {
    text: &'a [u8],
    label: &'a [u8],
}

fn main(rt: HostRuntime) {
    let out = rt.stdout();
    let mut buf = [0; ROOM];
    let Ok(mut file) = fs::open(&rt, "rows.bin") else {
        print::put(out, b"no rows\n");
        return;
    };
    let n = print::read_full(&mut file, &mut buf);
    replay(out, &buf[..n]);
}

fn replay(out: Stdout, s: &[u8]) {
    let _ = print!(out; "records {}\n", sample::number(s, NUMBER));
    for (name, what) in [
        ("sheets", What::Sheets),
        ("short buffers", What::Short),
        ("lines", What::Lines),
    ] {
        print::put(out, name.as_bytes());
        walk(s, what).show(out);
    }
}

// Every record in turn. They are counted from 1.
fn walk(s: &[u8], what: What) -> Tally {
    let mut tally = Tally::default();
    let mut at = sample::past(s, 0, HEAD);
    for k in 0..sample::number(s, NUMBER) {
        compare_record(s, at, what, k + 1, &mut tally);
        at = after_record(s, at);
    }
    tally
}

// A record begins with the text and the label. Behind them stand the row asked for, the outcome with its sheet, and
// the lines.
fn compare_record(s: &[u8], at: usize, what: What, k: u32, tally: &mut Tally) {
    let other = sample::after_bytes(s, at);
    let asked = Asked {
        text: sample::bytes(s, at),
        label: sample::bytes(s, other),
    };
    let row = sample::after_bytes(s, other);
    match what {
        What::Sheets => tally.count(k, sheets::compare(s, row, asked)),
        What::Short => tally.count(k, sheets::compare_short(s, row, asked)),
        What::Lines => lines::compare(s, after_sheet(s, row), asked.text, k, tally),
    }
}

// The row, an outcome, and as many bytes as it counts.
fn after_sheet(s: &[u8], row: usize) -> usize {
    let stored = sample::past(s, row, NUMBER);
    let sheet = sample::after_outcome(s, stored);
    sample::past(s, sheet, sample::count_of(s, stored) as usize)
}

fn after_record(s: &[u8], at: usize) -> usize {
    let row = sample::after_bytes(s, sample::after_bytes(s, at));
    lines::after(s, after_sheet(s, row))
}
