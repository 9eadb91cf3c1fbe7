// Reads `statement.sheet` and `schema.sheet` in the folder that it is run in, checks the one against the other, and
// prints each item with its message and how many there are, or the refusal. What it prints is the operations' answers;
// nothing is judged here. It takes no arguments: given one, it says so and checks nothing. Where standard output could
// not be written, it prints no more and says so, since its exit status is 0 all the same; what was printed is no
// answer.
#![tactic(auto)]

use schema::{Answer, Refusal};
use std::fs;
use std::io::{self, Print, Stdout};
use std::rt::Files;

// Of a file that is longer than the longest sheet one byte more is read, so that it is refused.
const SHEET: usize = frame::Sheet::MAX_BYTES + 1;

// A list of 512 items.
const PLACES: usize = 512 * judge::WIDTH;

// The longest message that is printed.
const TEXT: usize = 16384;

fn main(rt: HostRuntime) {
    if print::has_arguments(&rt) {
        print::say(
            rt.stderr(),
            b"usage: nurbellat (no arguments; it reads statement.sheet and schema.sheet in the current folder)\n",
        );
        return;
    }
    if check_files(&rt, rt.stdout()).is_err() {
        print::say(
            rt.stderr(),
            b"nurbellat: standard output could not be written\n",
        );
    }
}

// An error is that something could not be printed; so in what follows.
fn check_files(rt: &impl Files, out: Stdout) -> io::Result<()> {
    let mut statement = [0; SHEET];
    let mut schema = [0; SHEET];
    let m = read(rt, "statement.sheet", &mut statement);
    let n = read(rt, "schema.sheet", &mut schema);
    check_sheets(out, print::part(&statement, m), print::part(&schema, n))
}

// How many bytes of a file were read, as many as there is room for. A file that is absent or cannot be opened is taken
// as empty.
fn read(rt: &impl Files, name: &str, sheet: &mut [u8]) -> usize {
    match fs::open(rt, name) {
        Ok(mut file) => print::read_full(&mut file, sheet),
        Err(_) => 0,
    }
}

fn check_sheets(out: Stdout, statement: &[u8], schema: &[u8]) -> io::Result<()> {
    let mut list = [0; PLACES];
    match check(statement, schema, &mut list) {
        Err(q) => put_refusal(out, q),
        Ok(n) => put_items(out, statement, schema, &list, n),
    }
}

// The operations behind contracts that say nothing, so that their callers' proofs are short.
fn check(statement: &[u8], schema: &[u8], list: &mut [u32]) -> Answer {
    schema_aware::check_schema_aware(statement, schema, list)
}

fn say(statement: &[u8], schema: &[u8], k: u32, text: &mut [u8]) -> Answer {
    message::message(statement, schema, k, text)
}

// `refused N S P`: number, sheet, place.
fn put_refusal(out: Stdout, q: Refusal) -> io::Result<()> {
    println!(out; "refused {} {} {}", q.number, q.sheet, q.place)
}

// A line for each item, and then how many there are.
fn put_items(out: Stdout, statement: &[u8], schema: &[u8], list: &[u32], n: u32) -> io::Result<()> {
    let mut text = [0; TEXT];
    for k in 0..n {
        put_item(out, list, k)?;
        put_message(out, statement, schema, k, &mut text)?;
    }
    println!(out; "{n} listed")
}

// Code, start, end and owner of item k.
fn put_item(out: Stdout, list: &[u32], k: u32) -> io::Result<()> {
    let at = judge::WIDTH * (k as usize);
    match list.get(at..at + judge::WIDTH) {
        Some([code, start, end, owner, ..]) => print!(out; "E{code} {start} {end} {owner} "),
        _ => Ok(()),
    }
}

// The message of item k ends its line; `refused 16` stands in the place of one that is too long.
fn put_message(
    out: Stdout,
    statement: &[u8],
    schema: &[u8],
    k: u32,
    text: &mut [u8],
) -> io::Result<()> {
    match say(statement, schema, k, text) {
        Err(q) => println!(out; "refused {}", q.number),
        Ok(n) => {
            out.write_all(print::part(text, n as usize))?;
            println!(out)
        }
    }
}
