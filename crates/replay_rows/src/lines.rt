// The lines of a text: each place that is stored is asked for, from row to row, up to the end or the break. A whole row
// counts as accepted, the end and the break as refused.
use rfc4180::Line;
use sample::{NUMBER, Outcome, Tally};

// How what begins at a place is stored.
const WHOLE: u32 = 0;

const END: u32 = 1;

const BROKEN: u32 = 2;

// A place, what begins there, and three numbers of it.
const BYTES: usize = 5 * NUMBER;

// How many lines there are, and each of them.
pub fn compare(s: &[u8], from: usize, text: &[u8], k: u32, tally: &mut Tally) {
    let mut at = sample::past(s, from, NUMBER);
    for _ in 0..sample::number(s, from) {
        tally.count(k, compare_line(s, at, text));
        at = sample::past(s, at, BYTES);
    }
}

pub fn after(s: &[u8], at: usize) -> usize {
    let lines = BYTES * (sample::number(s, at) as usize);
    sample::past(s, sample::past(s, at, NUMBER), lines)
}

fn compare_line(s: &[u8], at: usize, text: &[u8]) -> Outcome {
    let stored = sample::past(s, at, NUMBER);
    let (same, outcome) = match line_at(text, sample::number(s, at) as usize) {
        Line::Whole(span) => (
            has(s, stored, WHOLE, [span.stop, span.next, span.cells]),
            Outcome::Accepted,
        ),
        Line::End => (has(s, stored, END, [0, 0, 0]), Outcome::Refused),
        Line::Broken(place) => (has(s, stored, BROKEN, [place, 0, 0]), Outcome::Refused),
    };
    if same { outcome } else { Outcome::Differing }
}

// The operation behind a contract that says nothing.
fn line_at(text: &[u8], at: usize) -> Line {
    rfc4180::next_row(text, at)
}

// Whether what begins at a line's place, and three numbers of it, are stored at a place.
fn has(s: &[u8], at: usize, kind: u32, [a, b, c]: [usize; 3]) -> bool {
    sample::number(s, at) == kind
        && has_number(s, sample::past(s, at, NUMBER), a)
        && has_number(s, sample::past(s, at, 2 * NUMBER), b)
        && has_number(s, sample::past(s, at, 3 * NUMBER), c)
}

// Whether a number stands at a place.
fn has_number(s: &[u8], at: usize, n: usize) -> bool {
    sample::number(s, at) as usize == n
}
