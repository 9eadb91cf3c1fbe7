// What the sheets are asked. Lists and texts hold marks before they are lent. A function that calls an operation does
// nothing behind the call.
ghost use Rattle.std.specs.Prelude.{◌≤◌};

use crate::{Sheet, answers, reading};
use schema::Answer;
use std::io::Stdout;

// The longest list.
const PLACES: usize = 3600;

// The longest message.
const MESSAGE: usize = 16384;

// The longest sheet that is made thin.
const THIN: usize = 256;

// The longest :TEXT.
const NAMED: usize = 256;

#[derive(Clone, Copy)]
pub enum Question {
    Message,
    Digest,
    Hash,
    Tokens,
    Thin(Sheet),
    List(List),
}

#[derive(Clone, Copy)]
pub enum List {
    Check,
    Margin,
    Labels,
    Types,
    Parameters,
    Endpoints,
}

// The two sheets that are asked.
#[derive(Clone, Copy)]
pub struct Sheets<'a> {
    pub statement: &'a [u8],
    pub schema: &'a [u8],
}

// Writes the answer to a line.
pub fn ask(out: Stdout, question: Question, line: &[u8], sheets: Sheets) {
    match question {
        Question::Message => say(out, line, sheets),
        Question::Digest => digest(out, sheets.schema),
        Question::Hash => hash(out, line),
        Question::Tokens => reading::put_from(out, sheets.statement, argument(out, line, b'@')),
        Question::Thin(sheet) => thin(out, sheet, line, sheets),
        Question::List(list) => put_list(out, list, line, sheets),
    }
}

// The number of a word that was asked for. If it is wrong or absent, that is said, and it is taken as 0.
fn number_of(out: Stdout, n: Option<u32>) -> u32 {
    if n.is_none() {
        print::put(out, b" (not understood)");
    }
    n.unwrap_or(0)
}

// The line's number behind a mark.
fn argument(out: Stdout, line: &[u8], mark: u8) -> u32 {
    number_of(out, notation::argument(line, mark))
}

// How many of so many places a line lends.
fn lent(out: Stdout, line: &[u8], most: usize) -> usize
    ensures { result ≤ most }
{
    most.min(argument(out, line, b'/') as usize)
}

// Writes the answer, whether all behind the message is as it was, and the message.
fn say(out: Stdout, line: &[u8], sheets: Sheets) {
    let mut text = [answers::BYTE_MARK; MESSAGE];
    let most = lent(out, line, MESSAGE);
    let k = argument(out, line, b'@');
    let r = say_item(sheets, k, &mut text[..most]);
    answers::answer(out, r);
    answers::put_text(out, &text, answers::counted(r));
}

// The operation behind a contract that says nothing, so that a caller's proof is short; so below.
fn say_item(sheets: Sheets, k: u32, text: &mut [u8]) -> Answer {
    message::message(sheets.statement, sheets.schema, k, text)
}

// Writes the answer, whether all behind the thin sheet is as it was, and the sheet.
fn thin(out: Stdout, sheet: Sheet, line: &[u8], sheets: Sheets) {
    let mut thinned = [answers::BYTE_MARK; THIN];
    let most = lent(out, line, THIN);
    let r = make_thin(sheet, sheets, &mut thinned[..most]);
    answers::answer(out, r);
    answers::put_sheet(out, &thinned, answers::counted(r));
}

// Each kind of sheet has its operation.
fn make_thin(sheet: Sheet, sheets: Sheets, out: &mut [u8]) -> Answer {
    match sheet {
        Sheet::Statement => thin::thin_statement(sheets.statement, out),
        Sheet::Schema => thin::thin_schema(sheets.schema, out),
    }
}

// Writes the answer, whether all behind the items is as it was, and the items.
fn put_list(out: Stdout, list: List, line: &[u8], sheets: Sheets) {
    let mut places = [answers::MARK; PLACES];
    let most = lent(out, line, PLACES);
    let r = fill(out, list, line, sheets, &mut places[..most]);
    answers::answer(out, r);
    answers::put_list(out, &places, answers::counted(r), width(list));
}

// How many numbers an item has.
fn width(list: List) -> usize {
    match list {
        List::Check | List::Margin => judge::WIDTH,
        List::Endpoints => 2,
        List::Labels | List::Types | List::Parameters => 1,
    }
}

// Each list has its operation.
fn fill(out: Stdout, list: List, line: &[u8], sheets: Sheets, places: &mut [u32]) -> Answer {
    let Sheets { statement, schema } = sheets;
    match list {
        List::Check => schema_aware::check_schema_aware(statement, schema, places),
        List::Margin => margin::margin_list(statement, schema, places),
        List::Labels => in_memory::label_names(schema, places),
        List::Types => in_memory::rel_type_names(schema, places),
        List::Parameters => in_memory::parameter_names(schema, places),
        List::Endpoints => endpoints(out, line, schema, places),
    }
}

// Puts the bytes of the line's :TEXT first into a buffer: how many they are.
fn put_named(out: Stdout, named: &mut [u8], line: &[u8]) -> usize {
    number_of(out, notation::put_named(named, line)) as usize
}

fn endpoints(out: Stdout, line: &[u8], schema: &[u8], places: &mut [u32]) -> Answer {
    let mut named = [0; NAMED];
    let n = put_named(out, &mut named, line);
    in_memory::relationship_endpoints(schema, print::part(&named, n), places)
}

fn digest(out: Stdout, schema: &[u8]) {
    let digest = in_memory::schema_digest(schema);
    let bytes = digest.bytes;
    answers::answer(out, digest.answer);
    answers::put_bytes(out, &bytes);
}

fn hash(out: Stdout, line: &[u8]) {
    let mut named = [0; NAMED];
    let n = put_named(out, &mut named, line);
    let hash = fnv::feed(fnv::start(), print::part(&named, n));
    let _ = print!(out; " -> {hash:016x}");
}
