// Comma-separated text as RFC 4180 defines it, row by row.
#![tactic(auto)]

ghost use Rattle.std.specs.Prelude.{◌≡◌, true, false, ◌≤◌, length, drop};
ghost use Rattle.rfc4180.specs.Csv.{class_of, fresh, quotes, return};
ghost use Rattle.rfc4180.specs.Line.{line_from, line_at};
ghost use Rattle.rfc4180.specs.Scan.{is_text, starts, TextTo, InnerAt, closed_at, CellTo, after_cell};
ghost use Rattle.rfc4180.specs.Grammar.{COMMA, DQUOTE};

// Between two cells.
const COMMA: u8 = 0x2c;

// Before the LF of a line end.
const CR: u8 = 0x0d;

// Around a cell, and doubled in it.
const DQUOTE: u8 = 0x22;

// The last byte of a line end.
const LF: u8 = 0x0a;

// Bytes below it are no TEXTDATA.
const SPACE: u8 = 0x20;

// The one byte from `SPACE` up that stands nowhere.
const DELETE: u8 = 0x7f;

// A row's bytes, from the place asked for up to `stop`, its line end left off; the next row begins at `next`; so many
// cells.
#[derive(Clone, Copy)]
pub struct Span {
    pub stop: usize,
    pub next: usize,
    pub cells: usize,
}

// What begins at a place: a whole row; nothing, since the text ends there or before; or what breaks the grammar at a
// byte.
#[derive(Clone, Copy)]
pub enum Line {
    Whole(Span),
    End,
    Broken(usize),
}

// Where a cell ends; or, as the error, where it breaks the grammar.
type CellEnd = Result<usize, usize>;

// Whether the byte `b` stands at a place.
fn has(text: &[u8], at: usize, b: u8) -> bool
    ensures { result ≡ starts b (drop at text.now) }
{
    at < text.len() && text[at] == b
}

// Whether a byte is TEXTDATA.
fn is_text(b: u8) -> bool
    ensures { result ≡ is_text (class_of b) }
{
    match b {
        DQUOTE | COMMA | DELETE => false,
        _ => SPACE <= b,
    }
}

// Where the TEXTDATA from `from` on ends.
fn text_end(text: &[u8], from: usize) -> usize
    requires { from ≤ length text.now }
    ensures { TextTo text.now from result }
{
    for i in from..text.len() {
        if !is_text(text[i]) {
            return i;
        }
    }
    text.len()
}

// How many bytes at a place in quotes are content, TEXTDATA aside: a comma, a CR or an LF is one, a doubled quote two.
fn inner(text: &[u8], at: usize) -> usize
    requires { at ≤ length text.now }
    ensures { InnerAt text.now at result }
{
    if has(text, at, DQUOTE) {
        return doubled(text, at);
    }
    if has(text, at, COMMA) || has(text, at, CR) || has(text, at, LF) {
        return 1;
    }
    0
}

// How many quotes at a quote in quotes are content: two where it is doubled.
fn doubled(text: &[u8], at: usize) -> usize
    requires { starts DQUOTE (drop at text.now) ≡ true }
    ensures { InnerAt text.now at result }
{
    if has(text, at + 1, DQUOTE) { 2 } else { 0 }
}

// The end of a cell whose content in quotes ends at a place: after the quote that stands there.
fn closed(text: &[u8], at: usize) -> CellEnd
    ensures { result ≡ closed_at text.now at }
{
    if has(text, at, DQUOTE) {
        Ok(at + 1)
    } else {
        Err(at)
    }
}

// The end of a cell from its place after the opening quote on.
fn quoted_end(text: &[u8], from: usize) -> CellEnd
    requires { from ≤ length text.now }
    ensures { CellTo text.now quotes from result }
{
    let mut i = text_end(text, from);
    let mut step = inner(text, i);
    while step != 0 {
        i = text_end(text, i + step);
        step = inner(text, i);
    }
    closed(text, i)
}

// The end of the cell that begins at a place.
#[inline(always)]
fn cell_end(text: &[u8], from: usize) -> CellEnd
    requires { from ≤ length text.now }
    ensures { CellTo text.now fresh from result }
{
    if has(text, from, DQUOTE) {
        return quoted_end(text, from + 1);
    }
    Ok(text_end(text, from))
}

// The row whose CR stands before a place.
fn after_cr(text: &[u8], at: usize, cells: usize) -> Line
    requires { 1 ≤ at }
    ensures { result ≡ line_from (drop at text.now) return cells at }
{
    if has(text, at, LF) {
        return Line::Whole(Span {
            stop: at - 1,
            next: at + 1,
            cells,
        });
    }
    Line::Broken(at)
}

// The row whose last cell ends at a place.
fn after_cell(text: &[u8], at: usize, cells: usize) -> Line
    requires { starts COMMA (drop at text.now) ≡ false }
    ensures { result ≡ after_cell (drop at text.now) cells at }
{
    if has(text, at, CR) {
        return after_cr(text, at + 1, cells);
    }
    if at < text.len() {
        return Line::Broken(at);
    }
    Line::Whole(Span {
        stop: at,
        next: at,
        cells,
    })
}

// The row that begins at a place, in time in proportion to it. It stands in its callers, as `cell_end` does in it: a
// row that is short or not there costs no call and no `Line` in memory.
#[inline(always)]
pub fn next_row(text: &[u8], at: usize) -> Line
    ensures { result ≡ line_at text.now at }
{
    if text.len() <= at {
        return Line::End;
    }
    let mut from = at;
    let mut cells: usize = 1;
    'cells: loop {
        let end = match cell_end(text, from) {
            Ok(end) => end,
            Err(place) => return Line::Broken(place),
        };
        if !has(text, end, COMMA) {
            return after_cell(text, end, cells);
        }
        from = end + 1;
        cells += 1;
    }
}
