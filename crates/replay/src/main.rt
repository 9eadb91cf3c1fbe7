// Replays the stored sample of the oracle: each pair of sheets is given to every public operation, and the answers,
// and what was written, are held against those in the sample. The layout of the sample is in oracle/README.md.
#![tactic(auto)]

mod listings;
mod messages;
mod store;

use listings::List;
use sample::{NUMBER, Outcome, Tally};
use schema::Answer;
use std::fs;
use std::io::Stdout;
use store::Names;

const ROOM: usize = 270336;

// Before the first record stand a number that marks the file, and how many records there are.
const HEAD: usize = 2 * NUMBER;

// The bytes of an item's numbers.
const ITEM: usize = NUMBER * judge::WIDTH;

// The bytes of a digest.
const DIGEST: usize = 32;

// What is compared.
#[derive(Clone, Copy)]
enum What {
    Statement,
    Schema,
    List(List),
    Messages,
    Digest,
    Names(Names),
    Endpoints,
}

// The sheets of a record.
#[derive(Clone, Copy)]
struct Pair<'a> {
    statement: &'a [u8],
    schema: &'a [u8],
}

fn main(rt: HostRuntime) {
    let out = rt.stdout();
    let mut buf = [0; ROOM];
    let Ok(mut file) = fs::open(&rt, "sample.bin") else {
        print::put(out, b"no sample\n");
        return;
    };
    let n = print::read_full(&mut file, &mut buf);
    replay(out, &buf[..n]);
}

fn replay(out: Stdout, s: &[u8]) {
    let _ = print!(out; "pairs {}\n", sample::number(s, NUMBER));
    for (name, what) in [
        ("statements", What::Statement),
        ("schemas", What::Schema),
        ("lists", What::List(List::Check)),
        ("margins", What::List(List::Margin)),
        ("messages", What::Messages),
        ("digests", What::Digest),
        ("labels", What::Names(Names::Labels)),
        ("types", What::Names(Names::Types)),
        ("parameters", What::Names(Names::Parameters)),
        ("endpoints", What::Endpoints),
    ] {
        print::put(out, name.as_bytes());
        walk(s, what).show(out);
    }
}

// Every record in turn. They are counted from 1.
fn walk(s: &[u8], what: What) -> Tally {
    let mut tally = Tally::default();
    let mut at = sample::past(s, 0, HEAD);
    for k in 0..sample::number(s, NUMBER) {
        compare_record(s, at, what, k + 1, &mut tally);
        at = after_record(s, at);
    }
    tally
}

// A record begins with the two sheets. Behind them stand the answers: first those to reading each of them, then the
// check's.
fn compare_record(s: &[u8], at: usize, what: What, k: u32, tally: &mut Tally) {
    let other = sample::after_bytes(s, at);
    let pair = Pair {
        statement: sample::bytes(s, at),
        schema: sample::bytes(s, other),
    };
    let read = sample::after_bytes(s, other);
    let second = sample::after_outcome(s, read);
    let checked = sample::after_outcome(s, second);
    match what {
        What::Statement => tally.count(k, compare_statement(s, read, pair)),
        What::Schema => tally.count(k, compare_schema(s, second, pair)),
        What::List(list) => tally.count(k, listings::compare(s, checked, pair, list)),
        What::Messages => messages::compare(s, checked, pair, k, tally),
        What::Digest => tally.count(k, store::compare_digest(s, checked, pair)),
        What::Names(names) => tally.count(k, store::compare_names(s, checked, pair, names)),
        What::Endpoints => store::compare_texts(s, checked, pair, k, tally),
    }
}

fn compare_statement(s: &[u8], at: usize, pair: Pair) -> Outcome {
    outcome(s, at, opening::read_statement(pair.statement))
}

fn compare_schema(s: &[u8], at: usize, pair: Pair) -> Outcome {
    outcome(s, at, opening::read_schema(pair.schema))
}

// What came of an answer that nothing is written with.
fn outcome(s: &[u8], at: usize, r: Answer) -> Outcome {
    Outcome::of(r, sample::agrees(s, at, r))
}

fn after_record(s: &[u8], at: usize) -> usize {
    let read = sample::after_bytes(s, sample::after_bytes(s, at));
    let checked = sample::after_outcome(s, sample::after_outcome(s, read));
    let texts = store::texts_at(s, checked);
    after_texts(s, sample::past(s, texts, NUMBER), sample::number(s, texts))
}

// The place after so many numbers.
fn after_numbers(s: &[u8], at: usize, n: u32) -> usize {
    sample::past(s, at, NUMBER * (n as usize))
}

// Items have their numbers and a message each.
fn after_items(s: &[u8], from: usize, n: u32) -> usize {
    let mut at = from;
    for _ in 0..n {
        at = sample::after_bytes(s, sample::past(s, at, ITEM));
    }
    at
}

// A text each, the outcome of its endpoints, and as many pairs.
fn after_texts(s: &[u8], from: usize, n: u32) -> usize {
    let mut at = from;
    for _ in 0..n {
        at = after_pairs(s, sample::after_bytes(s, at));
    }
    at
}

fn after_pairs(s: &[u8], at: usize) -> usize {
    let n = sample::count_of(s, at);
    after_numbers(s, after_numbers(s, sample::after_outcome(s, at), n), n)
}
