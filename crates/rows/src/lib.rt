// A row of comma-separated text as a statement: the sheet of one MERGE node with the row's values.
#![tactic(auto)]

ghost use Rattle.std.specs.Prelude.{◌≡◌, true};
ghost use Rattle.schema.specs.Effect.{Done};
ghost use Rattle.rfc4180.specs.Csv.{rows_of};
ghost use Rattle.rfc4180.specs.Line.{line_at};
ghost use Rattle.row_writer.specs.Writing.{paper_effect};
ghost use Rattle.row_writer.specs.Inner.{paper_in};
ghost use Rattle.rows.specs.Rows.{row_statement};
ghost use Rattle.rows.specs.Inner.{is_there, found_in, searched_at, bytes_in, Even};

use rfc4180::Line;
use row_writer::Bounds;
use schema::Answer;

// Whether a text keeps to RFC 4180, from its first row to its last. Rows differ in length: each says where the next
// begins.
fn is_csv(text: &[u8]) -> bool
    ensures { result ≡ is_there (rows_of text.now) }
{
    let mut at: usize = 0;
    while at < text.len() {
        let Line::Whole(span) = rfc4180::next_row(text, at) else {
            return false;
        };
        at = span.next;
    }
    true
}

// The row that begins at a place.
fn row_at(text: &[u8], at: usize) -> Option<Bounds>
    ensures { result ≡ searched_at (line_at text.now at) at }
{
    let Line::Whole(span) = rfc4180::next_row(text, at) else {
        return None;
    };
    Some(Bounds {
        start: at,
        stop: span.stop,
        cells: span.cells,
    })
}

// Row k of a text that keeps to RFC 4180; row 0 is the header.
fn find_row(text: &[u8], k: usize) -> Option<Bounds>
    requires { is_there (rows_of text.now) ≡ true }
    ensures { result ≡ found_in (rows_of text.now) k }
{
    let mut at: usize = 0;
    for j in 0..k {
        let Line::Whole(span) = rfc4180::next_row(text, at) else {
            return None;
        };
        at = span.next;
    }
    row_at(text, at)
}

// Writes the sheet of a row that has as many cells as the header, both by where they stand in a text.
fn write_row(text: &[u8], label: &[u8], header: Bounds, row: Bounds, out: &mut [u8]) -> Answer
    requires { Even text.now header row }
    ensures { Done (paper_effect (paper_in label.now (bytes_in text.now header) (bytes_in text.now row) row) row.stop out.old) out.old result out.new }
{
    let first = header.start;
    let end = header.stop;
    let start = row.start;
    let stop = row.stop;
    row_writer::fit_paper(label, &text[first..end], &text[start..stop], row, out)
}

// The statement sheet of row `row` of a text, from 0 behind the header: a MERGE of one node with a label and the row's
// values. 17 where the text breaks RFC 4180, 18 where there is no such row or it has not as many cells as the header,
// 5 for a name not UTF-8, 19 where the sheet would pass a limit or the span a u32, 16; else the number of bytes
// written. Refused, the buffer is as it came.
pub fn row_statement(text: &[u8], label: &[u8], row: u32, out: &mut [u8]) -> Answer
    ensures { Done (row_statement text.now label.now row out.old) out.old result out.new }
{
    if !is_csv(text) {
        return schema::refused(17, 0, 0);
    }
    let Some(header) = find_row(text, 0) else {
        return schema::refused(18, 0, 0);
    };
    let Some(found) = find_row(text, 1 + (row as usize)) else {
        return schema::refused(18, 0, 0);
    };
    if found.cells != header.cells {
        return schema::refused(18, 0, 0);
    }
    write_row(text, label, header, found, out)
}
