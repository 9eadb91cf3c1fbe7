// Shows a sheet in words, which `encode` takes: reads it from standard input, and writes a line for each token and
// then for each name, before them one that says so where the sheet is thin. Of a sheet that is refused with 1 to 5 the
// refusal is written.
#![tactic(auto)]

ghost use Rattle.std.specs.Prelude.{◌≤◌, length};
ghost use Rattle.frame.specs.Inner.{Sound};

use frame::{Fault, Sheet};
use std::io::{Stdin, Stdout};
use token_reader::Token;

// Of a sheet that is longer than the longest a byte more is read, so that it is refused.
const SHEET: usize = Sheet::MAX_BYTES + 1;

fn main(rt: HostRuntime) {
    if print::has_arguments(&rt) {
        print::say(
            rt.stderr(),
            b"usage: show (no arguments; a sheet from standard input, words to standard output)\n",
        );
        return;
    }
    show_input(rt.stdin(), rt.stdout());
}

fn show_input(mut input: Stdin, out: Stdout) {
    let mut sheet = [0; SHEET];
    let n = print::read_full(&mut input, &mut sheet);
    show(out, print::part(&sheet, n));
}

fn show(out: Stdout, s: &[u8]) {
    match frame::read(s) {
        Err(fault) => put_refusal(out, fault),
        Ok(f) => {
            put_thin(out, s);
            put_tokens(out, s, f);
            put_names(out, s, f);
        }
    }
}

// `refused N P`: number and place.
fn put_refusal(out: Stdout, fault: Fault) {
    let _ = print!(out; "refused {} {}\n", fault.number, fault.place);
}

// `thin`, of a sheet that is.
fn put_thin(out: Stdout, s: &[u8])
    requires { 12 ≤ length s.now }
{
    if frame::is_thin(s) {
        print::put(out, b"thin\n");
    }
}

// A reader goes through the tokens.
fn put_tokens(out: Stdout, s: &[u8], f: Sheet)
    requires { Sound s.now f }
{
    let mut reader = token_reader::start(s, f);
    while reader.at < f.tokens {
        put_token(out, token_reader::next(&mut reader));
    }
}

// `KIND.VALUE`.
fn put_token(out: Stdout, token: Option<Token>) {
    if let Some(Token { kind, value }) = token {
        let _ = print!(out; "{kind}.{value}\n");
    }
}

fn put_names(out: Stdout, s: &[u8], f: Sheet)
    requires { Sound s.now f }
{
    for k in 0..f.names {
        put_name(out, frame::name(s, f, k));
    }
}

// `'TEXT`.
fn put_name(out: Stdout, text: &[u8]) {
    print::put(out, b"'");
    put_text(out, text);
    print::put(out, b"\n");
}

fn put_text(out: Stdout, text: &[u8]) {
    for b in text {
        put_byte(out, *b);
    }
}

// A letter, a digit or a byte that is not ASCII stands for itself, any other as \HH.
fn put_byte(out: Stdout, b: u8) {
    if b.is_ascii_alphanumeric() || !b.is_ascii() {
        print::put(out, &[b]);
    } else {
        let _ = print!(out; "\\{b:02x}");
    }
}
