// Stored samples of the oracle's answers, as they are read back: numbers, outcomes and pieces at places of a file, and
// what came of holding answers against them.
#![tactic(auto)]

ghost use Rattle.std.specs.Prelude.{◌≡◌, ◌+◌, length, min};

use schema::Answer;
use std::io::Stdout;

// A number's bytes.
pub const NUMBER: usize = 4;

// How a stored outcome begins, a count behind it; a refusal begins with `REFUSED`.
const ACCEPTED: u32 = 0;

const REFUSED: u32 = 1;

// What each byte of a buffer holds before it is lent.
pub const MARK: u8 = 255;

// The refusal of a buffer that is too short.
pub const TOO_SHORT: u32 = 16;

// What came of an answer: it was accepted or refused as the oracle says, or it was not.
#[derive(Clone, Copy)]
pub enum Outcome {
    Accepted,
    Refused,
    Differing,
}

impl Outcome {
    // Of an answer, and whether it and what was written are as the oracle says.
    pub fn of(r: Answer, same: bool) -> Outcome {
        match r {
            _ if !same => Outcome::Differing,
            Ok(_) => Outcome::Accepted,
            Err(_) => Outcome::Refused,
        }
    }
}

// What came of the answers so far: how many of each outcome, and the record of the first that differs.
#[derive(Clone, Copy, Default)]
pub struct Tally {
    accepted: u32,
    refused: u32,
    differing: u32,
    first: Option<u32>,
}

impl Tally {
    // An answer more, to that record.
    pub fn count(&mut self, record: u32, outcome: Outcome) {
        match outcome {
            Outcome::Accepted => self.accepted = self.accepted.saturating_add(1),
            Outcome::Refused => self.refused = self.refused.saturating_add(1),
            Outcome::Differing => {
                self.differing = self.differing.saturating_add(1);
                self.first = self.first.or(Some(record));
            }
        }
    }

    pub fn show(self, out: Stdout) {
        let Tally {
            accepted,
            refused,
            differing,
            first,
        } = self;
        let _ = print!(out; " accepted {accepted}, refused {refused}, differing {differing}");
        if let Some(record) = first {
            let _ = print!(out; ", first {record}");
        }
        print::put(out, b"\n");
    }
}

// Whether the outcome at a place is an answer: 0 and a count, or 1 and number, sheet, place.
pub fn agrees(s: &[u8], at: usize, r: Answer) -> bool {
    let kind = number(s, at);
    let behind = past(s, at, NUMBER);
    match r {
        Ok(n) => kind == ACCEPTED && number(s, behind) == n,
        Err(q) => kind == REFUSED && has_numbers(s, behind, &[q.number, q.sheet, q.place]),
    }
}

// Whether these numbers stand at a place.
pub fn has_numbers(s: &[u8], at: usize, numbers: &[u32]) -> bool {
    let mut next = at;
    for n in numbers {
        if number(s, next) != *n {
            return false;
        }
        next = past(s, next, NUMBER);
    }
    true
}

// The number at a place; 0 where none fits.
pub fn number(s: &[u8], at: usize) -> u32 {
    match s.len().checked_sub(NUMBER) {
        Some(last) if at <= last => u32::from_le_bytes([s[at], s[at + 1], s[at + 2], s[at + 3]]),
        _ => 0,
    }
}

// The place n bytes on, or the end.
pub fn past(s: &[u8], at: usize, n: usize) -> usize
    ensures { result ≡ min (at + n) (length s.now) }
{
    at.saturating_add(n).min(s.len())
}

// The bytes behind a length, as far as there are so many.
pub fn bytes(s: &[u8], at: usize) -> &[u8] {
    let from = past(s, at, NUMBER);
    &s[from..past(s, from, number(s, at) as usize)]
}

// After a length and as many bytes.
pub fn after_bytes(s: &[u8], at: usize) -> usize {
    past(s, past(s, at, NUMBER), number(s, at) as usize)
}

pub fn after_outcome(s: &[u8], at: usize) -> usize {
    match number(s, at) {
        ACCEPTED => past(s, at, 2 * NUMBER),
        _ => past(s, at, 4 * NUMBER),
    }
}

// What an outcome counts; 0 where it is a refusal.
pub fn count_of(s: &[u8], at: usize) -> u32 {
    match number(s, at) {
        ACCEPTED => number(s, past(s, at, NUMBER)),
        _ => 0,
    }
}

// Whether these bytes stand at a place.
pub fn has_bytes(s: &[u8], at: usize, bytes: &[u8]) -> bool {
    match s.get(at..) {
        Some(rest) => rest.starts_with(bytes),
        None => false,
    }
}

// Whether the outcome at a place is the answer, and the n bytes behind it and no more stand in the buffer.
pub fn wrote(s: &[u8], at: usize, n: usize, r: Answer, out: &[u8]) -> bool {
    agrees(s, at, r)
        && is_kept(out, n, MARK)
        && has_bytes(s, after_outcome(s, at), print::part(out, n))
}

// An answer to a buffer a byte too short, which must be as it was: 16 where the outcome at a place is acceptance, else
// that outcome.
pub fn short(s: &[u8], at: usize, r: Answer, out: &[u8]) -> Outcome {
    let same = match number(s, at) {
        ACCEPTED => is_refused(r, TOO_SHORT),
        _ => agrees(s, at, r),
    };
    Outcome::of(r, same && is_kept(out, 0, MARK))
}

// A refusal of neither sheet.
pub fn is_refused(r: Answer, number: u32) -> bool {
    match r {
        Ok(_) => false,
        Err(q) => q.number == number && q.sheet == 0 && q.place == 0,
    }
}

// Whether each place holds a mark as it did, from one on. A loop, since a closure for each place is too slow where
// nothing is optimised.
pub fn is_kept<T: PartialEq + Copy>(places: &[T], from: usize, mark: T) -> bool {
    let Some(rest) = places.get(from..) else {
        return true;
    };
    for place in rest {
        if *place != mark {
            return false;
        }
    }
    true
}
