// The store's answers to a schema: the digest, the names of each kind, the endpoints of each text. Lists hold marks
// before they are lent, and are three places longer than what is to be written.
use crate::Pair;
use crate::listings::{self, MARK};
use sample::{NUMBER, Outcome, Tally};
use schema::Answer;

const PLACES: usize = 64;

#[derive(Clone, Copy)]
pub enum Names {
    Labels,
    Types,
    Parameters,
}

// In what follows the check's outcome is at a place. Behind it stand as many items as it counts, the same once more as
// the margin list has them, and then the store's answers.
fn digest_at(s: &[u8], at: usize) -> usize {
    let n = sample::count_of(s, at);
    let margin = crate::after_items(s, sample::after_outcome(s, at), n);
    sample::past(s, margin, crate::ITEM * (n as usize))
}

// Behind the digest's outcome and its bytes.
fn names_at(s: &[u8], at: usize, names: Names) -> usize {
    let digest = sample::after_outcome(s, digest_at(s, at));
    let labels = sample::past(s, digest, crate::DIGEST);
    match names {
        Names::Labels => labels,
        Names::Types => after_names(s, labels),
        Names::Parameters => after_names(s, after_names(s, labels)),
    }
}

pub fn texts_at(s: &[u8], at: usize) -> usize {
    after_names(s, names_at(s, at, Names::Parameters))
}

// An outcome, and as many name numbers as it counts.
fn after_names(s: &[u8], at: usize) -> usize {
    crate::after_numbers(s, sample::after_outcome(s, at), sample::count_of(s, at))
}

pub fn compare_digest(s: &[u8], at: usize, pair: Pair) -> Outcome {
    let stored = digest_at(s, at);
    let digest = in_memory::schema_digest(pair.schema);
    let bytes = digest.bytes;
    let same = sample::has_bytes(s, sample::after_outcome(s, stored), &bytes);
    Outcome::of(
        digest.answer,
        same && sample::agrees(s, stored, digest.answer),
    )
}

pub fn compare_names(s: &[u8], at: usize, pair: Pair, names: Names) -> Outcome {
    let mut list = [MARK; PLACES];
    let stored = names_at(s, at, names);
    let n = sample::count_of(s, stored) as usize;
    let r = ask_names(pair, names, &mut list[..PLACES.min(n + 3)]);
    Outcome::of(r, agrees(s, stored, n, r, &list))
}

fn ask_names(pair: Pair, names: Names, list: &mut [u32]) -> Answer {
    match names {
        Names::Labels => in_memory::label_names(pair.schema, list),
        Names::Types => in_memory::rel_type_names(pair.schema, list),
        Names::Parameters => in_memory::parameter_names(pair.schema, list),
    }
}

// Whether the outcome at a place is the answer, and the n numbers behind it and no more stand in the list.
fn agrees(s: &[u8], at: usize, n: usize, r: Answer, list: &[u32]) -> bool {
    sample::agrees(s, at, r)
        && listings::has_first(s, sample::after_outcome(s, at), n, list)
        && sample::is_kept(list, n, MARK)
}

// How many texts there are, and each with its endpoints.
pub fn compare_texts(s: &[u8], at: usize, pair: Pair, k: u32, tally: &mut Tally) {
    let texts = texts_at(s, at);
    let mut next = sample::past(s, texts, NUMBER);
    for _ in 0..sample::number(s, texts) {
        tally.count(k, compare_endpoints(s, next, pair));
        next = crate::after_pairs(s, sample::after_bytes(s, next));
    }
}

// The text and the outcome behind it are at a place.
fn compare_endpoints(s: &[u8], at: usize, pair: Pair) -> Outcome {
    let mut list = [MARK; PLACES];
    let stored = sample::after_bytes(s, at);
    let n = 2 * (sample::count_of(s, stored) as usize);
    let r = ask_endpoints(pair, sample::bytes(s, at), &mut list[..PLACES.min(n + 3)]);
    Outcome::of(r, agrees(s, stored, n, r, &list))
}

fn ask_endpoints(pair: Pair, text: &[u8], list: &mut [u32]) -> Answer {
    in_memory::relationship_endpoints(pair.schema, text, list)
}
