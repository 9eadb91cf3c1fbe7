// Runs the script `cases.txt`, and writes each of its lines with what came out. A line is one of these:
//
//     statement WORDS    makes the statement sheet, and reads it
//     schema WORDS       makes the schema sheet, and reads it
//     check /PLACES      checks the two sheets, with a list of so many u32
//     margin /PLACES     lists the same by span start
//     message @K /BYTES  writes the message of item K, from 0, with a text of so many bytes
//     labels /PLACES     lists the names of labels in order; and so do types and parameters
//     endpoints :TEXT /PLACES
//                        lists the endpoints of the relationship type of that name
//     digest             writes the schema's digest
//     fnv :TEXT          writes the FNV-1a hash of a text
//     thin-statement /BYTES
//                        makes the statement sheet thin, in a buffer of so many bytes, and writes it in base sixteen;
//                        and so does thin-schema
//     tokens @K          writes the statement sheet's tokens from token K on, read by a token reader
//     # TEXT             is only written, and so is an empty line
//
// `notation` says what WORDS and TEXT are, and that what stands behind a # is a comment. All but `tokens` give the
// sheets to the public operations alone.
#![tactic(auto)]

ghost use Rattle.std.specs.Prelude.{◌≤◌, length};

mod answers;
mod questions;
mod reading;

use questions::{List, Question, Sheets};
use std::fs;
use std::io::Stdout;
use std::rt::Files;

// The longest script.
const SCRIPT: usize = 65536;

// The sheet that a command speaks of.
#[derive(Clone, Copy)]
enum Sheet {
    Statement,
    Schema,
}

// What a line says: a sheet is made, or something is asked of the two.
#[derive(Clone, Copy)]
enum Command {
    Make(Sheet),
    Ask(Question),
}

// How many bytes each sheet has.
#[derive(Clone, Copy, Default)]
struct Lengths {
    statement: usize,
    schema: usize,
}

// Without a script nothing is written.
fn main(rt: HostRuntime) {
    let mut buf = [0; SCRIPT];
    let mut statement = [0; notation::ROOM];
    let mut schema = [0; notation::ROOM];
    let n = read_script(&rt, &mut buf);
    run(rt.stdout(), &buf[..n], &mut statement, &mut schema);
}

// How many bytes of the script were read.
fn read_script(rt: &impl Files, buf: &mut [u8]) -> usize
    ensures { result ≤ length buf.new }
{
    match fs::open(rt, "cases.txt") {
        Ok(mut file) => print::read_full(&mut file, buf),
        Err(_) => 0,
    }
}

// Each line in turn.
fn run(out: Stdout, script: &[u8], statement: &mut [u8], schema: &mut [u8]) {
    let mut n = Lengths::default();
    let mut at: usize = 0;
    while at < script.len() {
        let end = print::find(script, at, script.len(), b'\n');
        n = obey(out, &script[at..end], statement, schema, n);
        at = end + 1;
    }
}

// A line: its first word is the command. A line without one is only written.
fn obey(out: Stdout, line: &[u8], statement: &mut [u8], schema: &mut [u8], n: Lengths) -> Lengths {
    print::put(out, line);
    let end = print::find(line, 0, line.len(), b' ');
    let words = &line[end..];
    match read_command(out, &line[..end]) {
        Some(Command::Make(Sheet::Statement)) => Lengths {
            statement: make_statement(out, words, statement),
            ..n
        },
        Some(Command::Make(Sheet::Schema)) => Lengths {
            schema: make_schema(out, words, schema),
            ..n
        },
        Some(Command::Ask(question)) => {
            let sheets = Sheets {
                statement: print::part(statement, n.statement),
                schema: print::part(schema, n.schema),
            };
            questions::ask(out, question, line, sheets);
            print::put(out, b"\n");
            n
        }
        None => {
            print::put(out, b"\n");
            n
        }
    }
}

// The command of that name. That a name is none is said, but for a heading and an empty line.
fn read_command(out: Stdout, name: &[u8]) -> Option<Command> {
    let command = command_named(name);
    if command.is_none() && !is_heading(name) {
        print::put(out, b" -> not understood");
    }
    command
}

fn command_named(name: &[u8]) -> Option<Command> {
    let command = match name {
        b"statement" => Command::Make(Sheet::Statement),
        b"schema" => Command::Make(Sheet::Schema),
        _ => Command::Ask(question_named(name)?),
    };
    Some(command)
}

fn question_named(name: &[u8]) -> Option<Question> {
    let question = match name {
        b"message" => Question::Message,
        b"digest" => Question::Digest,
        b"fnv" => Question::Hash,
        b"tokens" => Question::Tokens,
        b"thin-statement" => Question::Thin(Sheet::Statement),
        b"thin-schema" => Question::Thin(Sheet::Schema),
        _ => Question::List(list_named(name)?),
    };
    Some(question)
}

fn list_named(name: &[u8]) -> Option<List> {
    match name {
        b"check" => Some(List::Check),
        b"margin" => Some(List::Margin),
        b"labels" => Some(List::Labels),
        b"types" => Some(List::Types),
        b"parameters" => Some(List::Parameters),
        b"endpoints" => Some(List::Endpoints),
        _ => None,
    }
}

// A byte 0 begins none that is said.
fn is_heading(name: &[u8]) -> bool {
    matches!(name, [] | [0 | b'#', ..])
}

// Makes a sheet and reads it: how long it is.
fn make_statement(out: Stdout, words: &[u8], sheet: &mut [u8]) -> usize {
    let n = made(out, words, sheet);
    answers::answer(out, opening::read_statement(print::part(sheet, n)));
    print::put(out, b"\n");
    n
}

fn make_schema(out: Stdout, words: &[u8], sheet: &mut [u8]) -> usize {
    let n = made(out, words, sheet);
    answers::answer(out, opening::read_schema(print::part(sheet, n)));
    print::put(out, b"\n");
    n
}

// How long the sheet is that words make. If a word is wrong, that is said, and an empty sheet is read.
fn made(out: Stdout, words: &[u8], sheet: &mut [u8]) -> usize {
    match notation::put_sheet(sheet, words) {
        Ok(n) => n,
        Err(_) => {
            print::put(out, b" (not understood)");
            0
        }
    }
}
