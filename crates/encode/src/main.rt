// Makes a sheet of words: reads the words from standard input, and writes the sheet to standard output. `notation`
// says what the words are. Where they make no sheet, nothing is written, and standard error has one line that says
// why: the exit status is 0 whatever happens.
#![tactic(auto)]

use notation::{Cause, Fault};
use std::io::{Stderr, Stdin, Stdout};

// The most words, in bytes. One byte more is read, so that longer input is known.
const WORDS: usize = 65536;

fn main(rt: HostRuntime) {
    if print::has_arguments(&rt) {
        print::say(
            rt.stderr(),
            b"usage: encode (no arguments; words from standard input, a sheet to standard output)\n",
        );
        return;
    }
    encode_input(rt.stdin(), rt.stdout(), rt.stderr());
}

fn encode_input(mut input: Stdin, out: Stdout, err: Stderr) {
    let mut words = [0; WORDS + 1];
    let n = print::read_full(&mut input, &mut words);
    if WORDS < n {
        let _ = print!(err; "too long: the words have room for {WORDS} bytes\n");
        return;
    }
    make(out, err, print::part(&words, n));
}

fn make(out: Stdout, err: Stderr, words: &[u8]) {
    let mut sheet = [0; notation::ROOM];
    match notation::put_sheet(&mut sheet, words) {
        Ok(n) => write(out, err, print::part(&sheet, n)),
        Err(fault) => say_fault(err, words, fault),
    }
}

fn write(out: Stdout, err: Stderr, sheet: &[u8]) {
    if !print::put(out, sheet) {
        print::say(err, b"encode: standard output could not be written\n");
    }
}

// `line L: wrong word: WORD`, or `line L: too long, the sheet has room for N bytes: WORD`, the word as it was typed.
fn say_fault(err: Stderr, words: &[u8], fault: Fault) {
    let line = line_of(print::part(words, fault.at));
    let _ = print!(err; "line {line}: ");
    let _ = match fault.cause {
        Cause::Wrong => print!(err; "wrong word: "),
        Cause::Long => print!(err;
            "too long, the sheet has room for {} bytes: ",
            notation::ROOM
        ),
    };
    print::say(err, notation::word_at(words, fault.at));
    print::say(err, b"\n");
}

// The line behind these words, counted from 1.
fn line_of(before: &[u8]) -> usize {
    1 + before.iter().filter(|b| **b == b'\n').count()
}
