// The sheet of a row: it is asked for with a few bytes more than it takes, which must stay as they were, and with one
// less, which gives 16 and leaves all of them.
use crate::Asked;
use sample::{MARK, NUMBER, Outcome};
use schema::Answer;

// So many bytes more are lent than a sheet takes.
const MARGIN: usize = 3;

const BYTES: usize = frame::Sheet::MAX_BYTES + MARGIN;

// The number of the row is at a place, and the outcome behind it.
pub fn compare(s: &[u8], at: usize, asked: Asked) -> Outcome {
    let mut out = [MARK; BYTES];
    let stored = sample::past(s, at, NUMBER);
    let n = sample::count_of(s, stored) as usize;
    let most = BYTES.min(n + MARGIN);
    let r = write(asked, sample::number(s, at), &mut out[..most]);
    Outcome::of(r, sample::wrote(s, stored, n, r, &out))
}

// A row that is refused is so with no byte as well.
pub fn compare_short(s: &[u8], at: usize, asked: Asked) -> Outcome {
    let mut out = [MARK; BYTES];
    let stored = sample::past(s, at, NUMBER);
    let n = sample::count_of(s, stored) as usize;
    let most = BYTES.min(n.saturating_sub(1));
    let r = write(asked, sample::number(s, at), &mut out[..most]);
    sample::short(s, stored, r, &out)
}

// The operation behind a contract that says nothing, so that a caller's proof is short.
fn write(asked: Asked, row: u32, out: &mut [u8]) -> Answer {
    rows::row_statement(asked.text, asked.label, row, out)
}
