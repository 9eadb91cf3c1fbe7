// Writes the statement sheet of a row of comma-separated text: one MERGE node with a label and the row's values.
#![tactic(auto)]

ghost use Rattle.std.specs.Prelude.{◌≡◌, ◌+◌, ◌≤◌, length};
ghost use Rattle.frame.specs.Limits.{max_names, max_text};
ghost use Rattle.frame.specs.Sheet.{bytes_of};
ghost use Rattle.schema.specs.Effect.{writes, exit, Done};
ghost use Rattle.written.specs.Written.{text_in, written};
ghost use Rattle.row_writer.specs.Writing.{paper_effect};
ghost use Rattle.row_writer.specs.Inner.{contents_in, Cut, paper_in, is_within, sizes_by, Planned};

use frame::{Fault, Sheet};
use schema::Answer;

pub mod columns;
pub mod names;

// A row of a text: where it begins, where it stops, and how many cells it has.
#[derive(Clone, Copy)]
pub struct Bounds {
    pub start: usize,
    pub stop: usize,
    pub cells: usize,
}

// The greatest u32: no span of a sheet ends behind it.
const LAST: usize = u32::MAX as usize;

// Whether the sheet keeps the limits and the row's span is of two u32. With so few names the tokens are few enough. One
// test after the other: as one expression the proof does not close, since the last test subtracts.
fn is_within(label: &[u8], header: &[u8], row: Bounds) -> bool
    ensures { result ≡ is_within row.cells row.stop (length label.now) (length (text_in (contents_in header.now))) }
{
    if Sheet::MAX_NAMES as usize <= row.cells {
        return false;
    }
    if LAST < row.stop {
        return false;
    }
    let most = Sheet::MAX_TEXT as usize;
    if most < label.len() {
        return false;
    }
    if most - label.len() < names::text_length(header) {
        return false;
    }
    true
}

// The sizes of the sheet of a row that is within them.
fn sizes_of(label: &[u8], header: &[u8], cells: u32) -> Sheet
    requires cells_bound { cells + 1 ≤ max_names }
    requires header_len_bound { length label.now + length (text_in (contents_in header.now)) ≤ max_text }
    ensures { result ≡ sizes_by cells (length label.now) (length (text_in (contents_in header.now))) }
{
    let text = label.len() + names::text_length(header);
    Sheet {
        tokens: columns::FIRST + 2 * cells,
        names: 1 + cells,
        text: text as u32,
    }
}

// Puts the whole sheet of a row into a buffer that has room for it.
fn put_paper(f: Sheet, label: &[u8], header: &[u8], row: &[u8], place: Bounds, out: &mut [u8])
    requires cut { Cut header.now row.now place }
    requires planned { Planned f label.now header.now place }
    requires f_in_bounds { bytes_of f ≤ length out.old }
    ensures { out.new ≡ exit (writes 0 (written (paper_in label.now header.now row.now place))) out.old }
{
    written::put_sizes(f, out);
    columns::put_tokens(f, row, place, out);
    names::put_names(f, label, header, out);
}

// Writes the sheet of a row that has as many cells as the header: 5, 19, 16, or the number of bytes. Refused, the
// buffer is as it came. It serves the crate above, which cuts header and row out of a text.
pub fn fit_paper(label: &[u8], header: &[u8], row: &[u8], place: Bounds, out: &mut [u8]) -> Answer
    requires { Cut header.now row.now place }
    ensures { Done (paper_effect (paper_in label.now header.now row.now place) place.stop out.old) out.old result out.new }
{
    if let Some(fault) = names::name_fault(label, header) {
        return schema::refused(fault.number, 1, fault.place);
    }
    if !is_within(label, header, place) {
        return schema::refused(19, 0, 0);
    }
    let f = sizes_of(label, header, place.cells as u32);
    let bytes = frame::length_of(f);
    if out.len() < bytes {
        return schema::refused(16, 0, 0);
    }
    put_paper(f, label, header, row, place, out);
    Ok(bytes as u32)
}
