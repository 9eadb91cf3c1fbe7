// The cells of a row of comma-separated text: where each ends, its kind, and how long its content is. A cell is read as
// it stands in the row, quotes and all: raw.
#![tactic(auto)]

ghost use Rattle.std.specs.Prelude.{◌≡◌, ◌≤◌, length};
ghost use Rattle.text.specs.Text.{is_text};
ghost use Rattle.cells.specs.KindOf.{is_digits, before_point, whole_kind, number_kind, bools, kind_of_cell};
ghost use Rattle.cells.specs.Raw.{ends_cell, turned, cell_end, width_of, undoubled, cell_of};

use rules::kinds;

const COMMA: u8 = b',';

const DQUOTE: u8 = b'"';

const MINUS: u8 = b'-';

const POINT: u8 = b'.';

// An Int has no more digits.
const MOST_DIGITS: usize = 18;

// Whether a byte ends a cell: a comma outside quotes.
fn ends_cell(quotes: bool, b: u8) -> bool
    ensures { result ≡ ends_cell quotes b }
{
    !quotes && b == COMMA
}

// Whether it is in quotes after one more byte.
fn turn(quotes: bool, b: u8) -> bool
    ensures { result ≡ turned quotes b }
{
    if b == DQUOTE { !quotes } else { quotes }
}

// Where the cell that begins at `at` ends: at its comma or at the end of the row.
pub fn cell_end(row: &[u8], at: usize) -> usize
    ensures { result ≡ cell_end row.now at }
{
    let mut quotes = false;
    for i in at..row.len() {
        if ends_cell(quotes, row[i]) {
            return i;
        }
        quotes = turn(quotes, row[i]);
    }
    at.max(row.len())
}

// Whether a text is digits alone, and at least one.
fn is_digits(s: &[u8]) -> bool
    ensures { result ≡ is_digits s.now }
{
    !s.is_empty() && s.iter().all(|b| b.is_ascii_digit())
}

// Where the first point of a text stands, or its end.
fn point_place(s: &[u8]) -> usize
    ensures { result ≡ length (before_point s.now) }
{
    s.iter().position(|b| *b == POINT).unwrap_or(s.len())
}

// The kind of so many digits without a point: a String where they are too many for an Int.
fn whole_kind(many: usize) -> u8
    ensures { result ≡ whole_kind many }
{
    if many <= MOST_DIGITS {
        kinds::INT
    } else {
        kinds::STRING
    }
}

// The kind of what follows an optional minus: Int, Float or String.
fn number_kind(s: &[u8]) -> u8
    ensures { result ≡ number_kind s.now }
{
    let place = point_place(s);
    if !is_digits(&s[..place]) {
        return kinds::STRING;
    }
    if s.len() <= place {
        return whole_kind(s.len());
    }
    if is_digits(&s[place + 1..]) {
        return kinds::FLOAT;
    }
    kinds::STRING
}

// Whether a text is true or false.
fn is_bool(s: &[u8]) -> bool
    ensures { result ≡ is_text bools s.now }
{
    text::same_text(s, b"true") || text::same_text(s, b"false")
}

// The kind of a raw cell.
pub fn kind(raw: &[u8]) -> u8
    ensures { result ≡ kind_of_cell (cell_of raw.now) }
{
    match raw {
        [] => kinds::NULL,
        [DQUOTE, ..] => kinds::STRING,
        _ if is_bool(raw) => kinds::BOOL,
        [MINUS, rest @ ..] => number_kind(rest),
        _ => number_kind(raw),
    }
}

// How many bytes of a quoted cell stand for one of its content: two of doubled quotes.
pub fn width(b: u8) -> usize
    ensures { (result ≡ width_of b) × (1 ≤ result) × (result ≤ 2) }
{
    if b == DQUOTE { 2 } else { 1 }
}

// How long the content of a quoted cell is. It begins after the opening quote, and the last byte is the closing one.
// One byte of content stands for one or two of the cell, so no `for` counts them.
fn undoubled_length(s: &[u8]) -> usize
    ensures { result ≡ length (undoubled s.now) }
{
    let mut i: usize = 0;
    let mut n: usize = 0;
    while i + 1 < s.len() {
        i += width(s[i]);
        n += 1;
    }
    n
}

// How long the content of a raw cell is, its quoting undone.
pub fn content_length(raw: &[u8]) -> usize
    ensures { result ≡ length (cell_of raw.now).content }
{
    match raw {
        [DQUOTE, rest @ ..] => undoubled_length(rest),
        _ => raw.len(),
    }
}
