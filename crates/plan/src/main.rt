// Reads `plan.csv` and `schema.sheet` in the folder that it is run in, and marks the rows of the plan, each as the MERGE
// of a node with the label Phase: a line for each breach, with the row, counted from 0 behind the header, the code,
// where the row begins and ends in the plan, and the message; then how many rows there are. Of a row that is no
// statement the refusal is printed, and where the plan breaks RFC 4180 the byte, behind which no row is marked. Each row
// is cut out with the header, so that a plan is gone over once. What is printed is the operations' answers; nothing is
// judged here.
#![tactic(auto)]

use rfc4180::{Line, Span};
use schema::{Answer, Refusal};
use std::fs;
use std::io::Stdout;
use std::rt::Files;

// The longest plan that is marked; of a longer one a byte more is read, so that it shows.
const PLAN: usize = 65536;

// Header and row with two line ends, each no longer than the plan.
const CUT: usize = 2 * PLAN + 4;

// The longest schema, and the longest sheet of a row.
const SHEET: usize = frame::Sheet::MAX_BYTES;

// A row has at most a breach for each name, and one for its key.
const PLACES: usize = (1 + frame::Sheet::MAX_NAMES as usize) * judge::WIDTH;

// The longest message that is printed.
const TEXT: usize = 16384;

const LABEL: [u8; 5] = *b"Phase";

// A row: its number, counted from 0 behind the header, and where it begins and ends in the plan.
#[derive(Clone, Copy)]
struct Row {
    number: u32,
    start: usize,
    stop: usize,
}

fn main(rt: HostRuntime) {
    let out = rt.stdout();
    let mut plan = [0; PLAN + 1];
    let mut schema = [0; SHEET];
    let n = read(&rt, "plan.csv", &mut plan);
    let m = read(&rt, "schema.sheet", &mut schema);
    if PLAN < n {
        print::put(out, b"the plan is too long\n");
        return;
    }
    mark(out, print::part(&plan, n), print::part(&schema, m));
}

// How many bytes of a file were read. An absent file is taken as empty.
fn read(rt: &impl Files, name: &str, room: &mut [u8]) -> usize {
    match fs::open(rt, name) {
        Ok(mut file) => print::read_full(&mut file, room),
        Err(_) => 0,
    }
}

// The operations behind contracts that say nothing, so that their callers' proofs are short.
fn statement(cut: &[u8], sheet: &mut [u8]) -> Answer {
    rows::row_statement(cut, &LABEL, 0, sheet)
}

fn check(sheet: &[u8], schema: &[u8], list: &mut [u32]) -> Answer {
    schema_aware::check_schema_aware(sheet, schema, list)
}

fn say(sheet: &[u8], schema: &[u8], k: u32, text: &mut [u8]) -> Answer {
    message::message(sheet, schema, k, text)
}

fn next_row(plan: &[u8], at: usize) -> Line {
    rfc4180::next_row(plan, at)
}

// The bytes from one place up to another, as far as there are some.
fn between(bytes: &[u8], from: usize, to: usize) -> &[u8] {
    print::part(bytes, to).get(from..).unwrap_or(b"")
}

fn put_broken(out: Stdout, place: usize) {
    let _ = println!(out; "broken at byte {place}");
}

// The header, and then every row in turn.
fn mark(out: Stdout, plan: &[u8], schema: &[u8]) {
    match next_row(plan, 0) {
        Line::Whole(span) => mark_rows(out, plan, schema, span),
        Line::End => put_count(out, 0),
        Line::Broken(place) => put_broken(out, place),
    }
}

// There are no more rows than bytes.
fn mark_rows(out: Stdout, plan: &[u8], schema: &[u8], header: Span) {
    let first = between(plan, 0, header.stop);
    let mut start = header.next;
    for number in 0..PLAN as u32 {
        match next_row(plan, start) {
            Line::Whole(span) => {
                let stop = span.stop;
                let row = Row {
                    number,
                    start,
                    stop,
                };
                mark_row(out, first, between(plan, start, stop), schema, row);
                start = span.next;
            }
            Line::End => return put_count(out, number),
            Line::Broken(place) => return put_broken(out, place),
        }
    }
}

fn put_count(out: Stdout, rows: u32) {
    let _ = println!(out; "{rows} rows");
}

// Puts bytes behind those that stand up to a place, if there is room, and answers where they end.
fn append(bytes: &[u8], to: &mut [u8], at: usize) -> usize {
    if to.len() < at {
        return to.len();
    }
    if to.len() - at < bytes.len() {
        return at;
    }
    to[at..at + bytes.len()].copy_from_slice(bytes);
    at + bytes.len()
}

// Header and row, each with a line end: how many bytes they are.
fn cut_out(header: &[u8], row: &[u8], cut: &mut [u8]) -> usize {
    let mut at = 0;
    for piece in [header, b"\r\n", row, b"\r\n"] {
        at = append(piece, cut, at);
    }
    at
}

fn mark_row(out: Stdout, header: &[u8], bytes: &[u8], schema: &[u8], row: Row) {
    let mut cut = [0; CUT];
    let mut sheet = [0; SHEET];
    let n = cut_out(header, bytes, &mut cut);
    match statement(print::part(&cut, n), &mut sheet) {
        Err(q) => put_refusal(out, row, q),
        Ok(m) => mark_sheet(out, print::part(&sheet, m as usize), schema, row),
    }
}

fn put_refusal(out: Stdout, row: Row, q: Refusal) {
    let _ = println!(out; "row {} refused {} {}", row.number, q.number, q.place);
}

fn mark_sheet(out: Stdout, sheet: &[u8], schema: &[u8], row: Row) {
    let mut list = [0; PLACES];
    match check(sheet, schema, &mut list) {
        Err(q) => put_refusal(out, row, q),
        Ok(n) => put_items(out, sheet, schema, &list, n, row),
    }
}

// A line for each item, and one for a row that has none.
fn put_items(out: Stdout, sheet: &[u8], schema: &[u8], list: &[u32], n: u32, row: Row) {
    if n == 0 {
        let _ = println!(out; "row {} clean", row.number);
    }
    for i in 0..n {
        put_item(out, list, i, row);
        put_message(out, sheet, schema, i);
    }
}

// Row, code, and where the row begins and ends in the plan, which is the span of every item of it.
fn put_item(out: Stdout, list: &[u32], i: u32, row: Row) {
    let Row {
        number,
        start,
        stop,
    } = row;
    if let Some(code) = list.get(judge::WIDTH * (i as usize)) {
        let _ = print!(out; "row {number} E{code} {start} {stop} ");
    }
}

fn put_message(out: Stdout, sheet: &[u8], schema: &[u8], i: u32) {
    let mut text = [0; TEXT];
    match say(sheet, schema, i, &mut text) {
        Err(q) => {
            let _ = print!(out; "{}", q.number);
        }
        Ok(n) => {
            print::put(out, print::part(&text, n as usize));
        }
    }
    print::put(out, b"\n");
}
