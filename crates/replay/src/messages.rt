// The messages of a pair: each is asked for with one byte less than it takes, which gives 16, and with three more;
// then one more is asked for than there are items. A buffer holds marks before it is lent.
use crate::{ITEM, Pair};
use sample::{MARK, NUMBER, Outcome, TOO_SHORT, Tally};
use schema::Answer;

const BYTES: usize = 512;

// The refusal of an item that is not there.
const NO_ITEM: u32 = 15;

// The check's outcome is at a place.
pub fn compare(s: &[u8], at: usize, pair: Pair, k: u32, tally: &mut Tally) {
    let n = sample::count_of(s, at);
    compare_each(s, sample::after_outcome(s, at), n, pair, k, tally);
    tally.count(k, compare_none(s, at, n, pair));
}

// The message of each of n items.
fn compare_each(s: &[u8], from: usize, n: u32, pair: Pair, k: u32, tally: &mut Tally) {
    let mut at = from;
    for i in 0..n {
        let text = sample::past(s, at, ITEM);
        tally.count(k, compare_one(s, text, i, pair));
        at = sample::after_bytes(s, text);
    }
}

// Its length and its bytes are at a place.
fn compare_one(s: &[u8], at: usize, i: u32, pair: Pair) -> Outcome {
    let mut text = [MARK; BYTES];
    let n = sample::number(s, at) as usize;
    if !is_short(pair, i, n, &mut text) {
        return Outcome::Differing;
    }
    let r = say(pair, i, n + 3, &mut text);
    Outcome::of(r, agrees(s, at, n, r, &text))
}

// Item n is not there: 15, or the refusal of the check. That is not 14, since the list was long enough.
fn compare_none(s: &[u8], at: usize, n: u32, pair: Pair) -> Outcome {
    let mut text = [MARK; BYTES];
    let r = say(pair, n, BYTES, &mut text);
    let same = match sample::number(s, at) {
        0 => sample::is_refused(r, NO_ITEM),
        _ => sample::agrees(s, at, r),
    };
    Outcome::of(r, same && sample::is_kept(&text, 0, MARK))
}

// The message of item i with so many bytes of the text.
fn say(pair: Pair, i: u32, bytes: usize, text: &mut [u8]) -> Answer {
    let most = bytes.min(text.len());
    say_into(pair, i, &mut text[..most])
}

fn say_into(pair: Pair, i: u32, text: &mut [u8]) -> Answer {
    message::message(pair.statement, pair.schema, i, text)
}

// Whether one byte less than n is too short, and leaves the text as it was.
fn is_short(pair: Pair, i: u32, n: usize, text: &mut [u8]) -> bool {
    if n == 0 {
        return false;
    }
    let r = say(pair, i, n - 1, text);
    sample::is_kept(text, 0, MARK) && sample::is_refused(r, TOO_SHORT)
}

// Whether the n bytes of a message were counted, and they and no more stand in the text.
fn agrees(s: &[u8], at: usize, n: usize, r: Answer, text: &[u8]) -> bool {
    let stored = sample::past(s, at, NUMBER);
    is_count(r, n)
        && sample::is_kept(text, n, MARK)
        && sample::has_bytes(s, stored, print::part(text, n))
}

fn is_count(r: Answer, n: usize) -> bool {
    match r {
        Ok(m) => m as usize == n,
        Err(_) => false,
    }
}
