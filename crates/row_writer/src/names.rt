// The names of a row's sheet: the label is name 0, and the headers follow, their quoting undone. Cells differ in length,
// so that a loop over them goes by where each ends.
ghost use Rattle.std.specs.Prelude.{◌≡◌, ◌+◌, ◌≤◌, ◌<◌, ◌∷◌, length};
ghost use Rattle.frame.specs.Sheet.{bytes_of};
ghost use Rattle.cells.specs.Raw.{raw_cells, undoubled};
ghost use Rattle.written.specs.Written.{text_in, ends_from};
ghost use Rattle.written.specs.Inner.{TextPut, NamesPut};
ghost use Rattle.row_writer.specs.Writing.{name_fault_of};
ghost use Rattle.row_writer.specs.Inner.{content_of, contents_in};

use frame::{Fault, Sheet};

const DQUOTE: u8 = b'"';

// The first name that is not UTF-8. Quotes are ASCII, so that a header is looked at as it stands, quotes and all.
pub fn name_fault(label: &[u8], header: &[u8]) -> Option<Fault>
    ensures { result ≡ name_fault_of 0 (label.now ∷ raw_cells header.now) }
{
    if !utf8::is_utf8(label) {
        return Some(Fault {
            number: 5,
            place: 0,
        });
    }
    let mut k: u32 = 1;
    let mut at: usize = 0;
    while at <= header.len() {
        let end = cells::cell_end(header, at);
        if !utf8::is_utf8(&header[at..end]) {
            return Some(Fault {
                number: 5,
                place: k,
            });
        }
        at = end + 1;
        k = k.saturating_add(1);
    }
    None
}

// How many bytes the headers have together.
pub fn text_length(header: &[u8]) -> usize
    ensures { result ≡ length (text_in (contents_in header.now)) }
{
    let mut sum: usize = 0;
    let mut at: usize = 0;
    while at <= header.len() {
        let end = cells::cell_end(header, at);
        sum += cells::content_length(&header[at..end]);
        at = end + 1;
    }
    sum
}

// Puts the content of a quoted cell, from behind its opening quote on, into the text: where it ends. A doubled quote is
// two bytes wide, another byte one, so that the place moves by either.
fn put_undoubled(f: Sheet, at: u32, s: &[u8], out: &mut [u8]) -> u32
    requires f_in_bounds { bytes_of f ≤ length out.old }
    requires s_bound { at + length (undoubled s.now) ≤ f.text }
    ensures { (result ≡ at + length (undoubled s.now)) × TextPut f at (undoubled s.now) out.old out.new }
{
    let mut to = at;
    let mut i: usize = 0;
    while i + 1 < s.len() {
        written::put_byte(f, to, s[i], out);
        to += 1;
        i += cells::width(s[i]);
    }
    to
}

// Puts the content of a raw cell into the text: where it ends.
fn put_content(f: Sheet, at: u32, raw: &[u8], out: &mut [u8]) -> u32
    requires f_in_bounds { bytes_of f ≤ length out.old }
    requires raw_bound { at + length (content_of raw.now) ≤ f.text }
    ensures { (result ≡ at + length (content_of raw.now)) × TextPut f at (content_of raw.now) out.old out.new }
{
    if raw.len() == 0 {
        return at;
    }
    if raw[0] == DQUOTE {
        return put_undoubled(f, at, &raw[1..], out);
    }
    written::put_text(f, at, raw, out);
    at + (raw.len() as u32)
}

// Puts the headers behind the label, which ends at a place of the text.
fn put_headers(f: Sheet, from: u32, header: &[u8], out: &mut [u8])
    requires f_in_bounds { bytes_of f ≤ length out.old }
    requires header_bound { 1 + length (raw_cells header.now) ≤ f.names }
    requires header_bound_2 { from + length (text_in (contents_in header.now)) ≤ f.text }
    ensures { NamesPut f 1 (ends_from from (contents_in header.now)) from (text_in (contents_in header.now)) out.old out.new }
{
    let mut end = from;
    let mut k: u32 = 1;
    let mut at: usize = 0;
    while at <= header.len() {
        let stop = cells::cell_end(header, at);
        end = put_content(f, end, &header[at..stop], out);
        written::put_end(f, k, end, out);
        at = stop + 1;
        k += 1;
    }
}

// Puts the names of a row's sheet.
pub fn put_names(f: Sheet, label: &[u8], header: &[u8], out: &mut [u8])
    requires f_in_bounds { bytes_of f ≤ length out.old }
    requires header_bound { 1 + length (raw_cells header.now) ≤ f.names }
    requires header_len_bound { length (text_in (label.now ∷ contents_in header.now)) ≤ f.text }
    ensures { NamesPut f 0 (ends_from 0 (label.now ∷ contents_in header.now)) 0 (text_in (label.now ∷ contents_in header.now)) out.old out.new }
{
    let end = label.len() as u32;
    written::put_text(f, 0, label, out);
    written::put_end(f, 0, end, out);
    put_headers(f, end, header, out);
}
