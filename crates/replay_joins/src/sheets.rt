// The sheet of two statements: it is asked for with a buffer of the stored length, whose bytes behind the sheet must
// stay as they were, and with one byte less than it takes, which gives 16 and leaves all of them.
use crate::Pair;
use sample::{MARK, NUMBER, Outcome};
use schema::Answer;

// No buffer that is lent is longer.
const BYTES: usize = frame::Sheet::MAX_BYTES;

// The length of the buffer is at a place, and the outcome behind it.
pub fn compare(s: &[u8], at: usize, pair: Pair) -> Outcome {
    let mut out = [MARK; BYTES];
    let stored = sample::past(s, at, NUMBER);
    let n = sample::count_of(s, stored) as usize;
    let most = BYTES.min(sample::number(s, at) as usize);
    let r = write(pair, &mut out[..most]);
    Outcome::of(r, sample::wrote(s, stored, n, r, &out))
}

// Sheets that are refused are so with no byte as well.
pub fn compare_short(s: &[u8], at: usize, pair: Pair) -> Outcome {
    let mut out = [MARK; BYTES];
    let stored = sample::past(s, at, NUMBER);
    let n = sample::count_of(s, stored) as usize;
    let most = BYTES.min(n.saturating_sub(1));
    let r = write(pair, &mut out[..most]);
    sample::short(s, stored, r, &out)
}

// The operation behind a contract that says nothing, so that a caller's proof is short.
fn write(pair: Pair, out: &mut [u8]) -> Answer {
    join::join_statements(pair.first, pair.second, out)
}
