// The lists of a pair, the check's and the margin list: each is asked for with as many places as its items take and one
// less than another would take, and the answer, the items and the places behind them are held against the sample.
use crate::Pair;
use sample::Outcome;
use schema::Answer;

// What each place holds before the list is lent.
pub const MARK: u32 = 4000000000;

const PLACES: usize = 512;

#[derive(Clone, Copy)]
pub enum List {
    Check,
    Margin,
}

// The check's outcome is at a place.
pub fn compare(s: &[u8], at: usize, pair: Pair, list: List) -> Outcome {
    let mut places = [MARK; PLACES];
    let n = judge::WIDTH * (sample::count_of(s, at) as usize);
    let most = PLACES.min(n + judge::WIDTH - 1);
    let r = ask(list, pair, &mut places[..most]);
    Outcome::of(r, agrees(s, at, list, r, &places))
}

// The operations behind a contract that says nothing, so that a caller's proof is short; so below.
fn ask(list: List, pair: Pair, places: &mut [u32]) -> Answer {
    match list {
        List::Check => schema_aware::check_schema_aware(pair.statement, pair.schema, places),
        List::Margin => margin::margin_list(pair.statement, pair.schema, places),
    }
}

// Whether the outcome at a place is the answer, and the items behind it and no more stand in the list.
fn agrees(s: &[u8], at: usize, list: List, r: Answer, places: &[u32]) -> bool {
    let n = sample::count_of(s, at);
    let items = sample::after_outcome(s, at);
    sample::agrees(s, at, r)
        && has_list(s, items, list, n, places)
        && sample::is_kept(places, judge::WIDTH * (n as usize), MARK)
}

// Behind the items with their messages stand those of the margin list, without.
fn has_list(s: &[u8], from: usize, list: List, n: u32, places: &[u32]) -> bool {
    match list {
        List::Check => has_items(s, from, n, places),
        List::Margin => {
            let margin = crate::after_items(s, from, n);
            has_first(s, margin, judge::WIDTH * (n as usize), places)
        }
    }
}

// Items have their numbers and a message each.
fn has_items(s: &[u8], from: usize, n: u32, places: &[u32]) -> bool {
    let mut at = from;
    let mut rest = places;
    for _ in 0..n {
        let Some((item, others)) = rest.split_at_checked(judge::WIDTH) else {
            return false;
        };
        if !sample::has_numbers(s, at, item) {
            return false;
        }
        at = sample::after_bytes(s, sample::past(s, at, crate::ITEM));
        rest = others;
    }
    true
}

// Whether the n numbers at a place stand first in the list.
pub fn has_first(s: &[u8], at: usize, n: usize, places: &[u32]) -> bool {
    match places.get(..n) {
        Some(numbers) => sample::has_numbers(s, at, numbers),
        None => false,
    }
}
