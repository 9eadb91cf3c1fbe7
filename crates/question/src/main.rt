// Reads `first.sheet`, `second.sheet` and `schema.sheet` in the folder that it is run in, joins the two statements and
// marks them as one paper: a line for each breach, with the clause, counted from 0 over both statements, the code,
// where the span begins and ends in its own statement, the owner in the joined sheet, and the message; then how many
// there are. Where the statements cannot be joined, or the paper cannot be checked, the refusal is printed: number,
// sheet and place. What is printed is the operations' answers; nothing is judged here.
#![tactic(auto)]

use schema::{Answer, Refusal};
use std::fs;
use std::io::Stdout;
use std::rt::Files;

// The longest sheet.
const SHEET: usize = frame::Sheet::MAX_BYTES;

// Of a file that is longer a byte more is read, so that it is refused.
const FILE: usize = SHEET + 1;

// A list of 512 items.
const PLACES: usize = 512 * judge::WIDTH;

// The longest message that is printed.
const TEXT: usize = 16384;

fn main(rt: HostRuntime) {
    let mut first = [0; FILE];
    let mut second = [0; FILE];
    let mut schema = [0; FILE];
    let m = read(&rt, "first.sheet", &mut first);
    let n = read(&rt, "second.sheet", &mut second);
    let k = read(&rt, "schema.sheet", &mut schema);
    mark(
        rt.stdout(),
        print::part(&first, m),
        print::part(&second, n),
        print::part(&schema, k),
    );
}

// How many bytes of a file were read. An absent file is taken as empty.
fn read(rt: &impl Files, name: &str, room: &mut [u8]) -> usize {
    match fs::open(rt, name) {
        Ok(mut file) => print::read_full(&mut file, room),
        Err(_) => 0,
    }
}

// The operations behind contracts that say nothing, so that their callers' proofs are short.
fn join(first: &[u8], second: &[u8], joined: &mut [u8]) -> Answer {
    join::join_statements(first, second, joined)
}

fn check(paper: &[u8], schema: &[u8], list: &mut [u32]) -> Answer {
    schema_aware::check_schema_aware(paper, schema, list)
}

fn say(paper: &[u8], schema: &[u8], k: u32, text: &mut [u8]) -> Answer {
    message::message(paper, schema, k, text)
}

fn mark(out: Stdout, first: &[u8], second: &[u8], schema: &[u8]) {
    let mut joined = [0; SHEET];
    match join(first, second, &mut joined) {
        Err(q) => put_refusal(out, "join", q),
        Ok(n) => mark_paper(out, print::part(&joined, n as usize), schema),
    }
}

fn mark_paper(out: Stdout, paper: &[u8], schema: &[u8]) {
    let mut list = [0; PLACES];
    match check(paper, schema, &mut list) {
        Err(q) => put_refusal(out, "check", q),
        Ok(n) => put_items(out, paper, schema, &list, n),
    }
}

// What was refused, since the second sheet is the second statement to the one and the schema to the other.
fn put_refusal(out: Stdout, what: &str, q: Refusal) {
    let _ = println!(out; "{what} refused {} {} {}", q.number, q.sheet, q.place);
}

// A line for each item, and then how many there are.
fn put_items(out: Stdout, paper: &[u8], schema: &[u8], list: &[u32], n: u32) {
    for k in 0..n {
        put_item(out, list, k);
        put_message(out, paper, schema, k);
    }
    let _ = println!(out; "{n} listed");
}

// Clause, code, start, end and owner of item k: `clause 3 E3009 25 53 31 `.
fn put_item(out: Stdout, list: &[u32], k: u32) {
    let at = judge::WIDTH * (k as usize);
    if let Some([code, start, end, owner, _, _, clause]) = list.get(at..at + judge::WIDTH) {
        let _ = print!(out; "clause {clause} E{code} {start} {end} {owner} ");
    }
}

// The message of item k ends its line; `refused 16` stands in the place of one that is too long.
fn put_message(out: Stdout, paper: &[u8], schema: &[u8], k: u32) {
    let mut text = [0; TEXT];
    match say(paper, schema, k, &mut text) {
        Err(q) => {
            let _ = print!(out; "refused {}", q.number);
        }
        Ok(n) => {
            print::put(out, print::part(&text, n as usize));
        }
    }
    print::put(out, b"\n");
}
