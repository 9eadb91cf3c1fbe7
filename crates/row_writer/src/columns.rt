// The tokens of a row's sheet: a MERGE of one node, and a pair of header and value for each column.
ghost use Rattle.std.specs.Prelude.{◌++◌, ◌+◌, ◌*◌, ◌≤◌, ◌<◌, length};
ghost use Rattle.frame.specs.Sheet.{bytes_of};
ghost use Rattle.cells.specs.Raw.{raw_cells};
ghost use Rattle.written.specs.Inner.{TokensPut};
ghost use Rattle.row_paper.specs.Paper.{column_tokens};
ghost use Rattle.row_writer.specs.Writing.{max_number};
ghost use Rattle.row_writer.specs.Inner.{cells_in, clause_size, clause_tokens, node_size, node_tokens};

use crate::Bounds;
use frame::Sheet;
use rules::kinds;

// The first column's Name.
pub const FIRST: u32 = 9;

// The Node's value: the label, and the map.
const LABEL_AND_MAP: u32 = 3;

// Puts the tokens around the node: one MERGE of one pattern, which is one part of one element.
fn put_clause(f: Sheet, out: &mut [u8])
    requires f_in_bounds { bytes_of f ≤ length out.old }
    requires node_size_le_tokens { node_size ≤ f.tokens }
    ensures { TokensPut f 0 clause_tokens out.old out.new }
{
    written::put_token(f, 0, kinds::STATEMENT, 1, out);
    written::put_token(f, 1, kinds::MERGE, 0, out);
    written::put_token(f, 2, kinds::PATTERN, 1, out);
    written::put_token(f, 3, kinds::PART, 1, out);
}

// Puts the node up to its columns: its span, its label and the map.
fn put_node(f: Sheet, start: u32, stop: u32, cells: u32, out: &mut [u8])
    requires f_in_bounds { bytes_of f ≤ length out.old }
    requires node_size_le_tokens { node_size ≤ f.tokens }
    ensures { TokensPut f clause_size (node_tokens start stop cells) out.old out.new }
{
    written::put_token(f, 4, kinds::NODE, LABEL_AND_MAP, out);
    written::put_token(f, 5, kinds::NUMBER, start, out);
    written::put_token(f, 6, kinds::NUMBER, stop, out);
    written::put_token(f, 7, kinds::NAME, 0, out);
    written::put_token(f, 8, kinds::MAP, cells, out);
}

// Puts the pairs of the columns: a header's name, and a value of the cell's kind. Cells differ in length, so that the
// loop goes by where each ends.
fn put_columns(f: Sheet, row: &[u8], out: &mut [u8])
    requires f_in_bounds { bytes_of f ≤ length out.old }
    requires row_bound { node_size + 2 * length (raw_cells row.now) ≤ f.tokens }
    ensures { TokensPut f node_size (column_tokens 1 (cells_in row.now)) out.old out.new }
{
    let mut i = FIRST;
    let mut k: u32 = 1;
    let mut at: usize = 0;
    while at <= row.len() {
        let end = cells::cell_end(row, at);
        let kind = cells::kind(&row[at..end]);
        written::put_token(f, i, kinds::NAME, k, out);
        written::put_token(f, i + 1, kind, 0, out);
        at = end + 1;
        i += 2;
        k += 1;
    }
}

// Puts all tokens of a row's sheet.
pub fn put_tokens(f: Sheet, row: &[u8], place: Bounds, out: &mut [u8])
    requires f_in_bounds { bytes_of f ≤ length out.old }
    requires row_bound { node_size + 2 * length (raw_cells row.now) ≤ f.tokens }
    requires start_le_max_number { (place.start ≤ max_number) × (place.stop ≤ max_number) × (place.cells ≤ max_number) }
    ensures { TokensPut f 0 (clause_tokens ++ (node_tokens place.start place.stop place.cells ++ column_tokens 1 (cells_in row.now))) out.old out.new }
{
    put_clause(f, out);
    put_node(
        f,
        place.start as u32,
        place.stop as u32,
        place.cells as u32,
        out,
    );
    put_columns(f, row, out);
}
