// Sheets in words, with blanks, tabs or ends of lines between them:
//
//     KIND.VALUE    a token; KIND alone has the value 0
//     :TEXT         a Name token, and a name of its own for it
//     'TEXT         a name without a token; 50.K is a Name token of name K, counted from 0
//     WORD*TIMES    the word, one of those above, so many times, at least once
//     thin          the sheet is thin: its ends have two bytes each, and its token count has the top bit; at most once
//     @PLACE.N      the u32 at that byte of the sheet is N, whatever the words above put there
//     /N            the sheet is its first N bytes, or has bytes behind it up to N; at most once
//
// What stands behind a # up to the end of its line is a comment. A number is one digit or more, in base ten, and
// fits a u32. A KIND is at most 255, and the four bytes at a PLACE lie in the sheet. A TEXT may be empty. In it \HH is
// a byte in base sixteen: so are written #, *, / and \, as \2A for a star, and the blank and what else of ASCII is not
// seen. Any other byte stands for itself. Any other word is wrong, and there is no sheet then.
#![tactic(auto)]

mod reading;

ghost use Rattle.std.specs.Prelude.{◌≡◌, ◌*◌, ◌≤◌};
ghost use Rattle.lists.specs.Lists.{pick};

use reading::{Word, Words};

// A sheet that is refused may be longer than the longest that is read.
pub const ROOM: usize = 65536;

// The three sizes, of four bytes each.
const HEADER: usize = 12;

// The kind of a Name token.
const NAME_KIND: u8 = 50;

// The top bit of the token count, which marks a thin sheet.
const TOP_BIT: u32 = 2147483648;

// Why a word makes no sheet: it is wrong, or with it the sheet has no room.
#[derive(Clone, Copy)]
pub enum Cause {
    Wrong,
    Long,
}

// The byte at which that word begins, and why.
#[derive(Clone, Copy)]
pub struct Fault {
    pub at: usize,
    pub cause: Cause,
}

// A sheet so far: how many tokens, names and bytes of text it has, the length that a word gives it, and whether one
// makes it thin.
#[derive(Clone, Copy, Default)]
struct Sizes {
    tokens: u32,
    names: u32,
    text: u32,
    length: Option<u32>,
    thin: bool,
}

impl Sizes {
    fn with_token(self) -> Sizes {
        Sizes {
            tokens: self.tokens.wrapping_add(1),
            ..self
        }
    }

    // With a name of so many bytes.
    fn with_name(self, text: u32) -> Sizes {
        Sizes {
            names: self.names.wrapping_add(1),
            text: self.text.wrapping_add(text),
            ..self
        }
    }

    // Where the value of token i stands.
    fn value_at(self, i: u32) -> usize {
        HEADER + (self.tokens as usize) + 4 * (i as usize)
    }

    // Where the end of name k stands.
    fn end_at(self, k: u32) -> usize {
        HEADER + 5 * (self.tokens as usize) + ends_bytes(self.thin, k)
    }

    // Where byte n of the text stands.
    fn text_at(self, n: u32) -> usize {
        HEADER + 5 * (self.tokens as usize) + ends_bytes(self.thin, self.names) + (n as usize)
    }

    // How long a sheet is by its sizes alone.
    fn own_length(self) -> usize {
        self.text_at(self.text)
    }

    fn length(self) -> usize {
        match self.length {
            Some(n) => n as usize,
            None => self.own_length(),
        }
    }

    // The first size as it stands in the sheet.
    fn token_count(self) -> u32 {
        if self.thin {
            self.tokens.wrapping_add(TOP_BIT)
        } else {
            self.tokens
        }
    }

    // With one word more, whose TEXT, if it has one, makes so many bytes. Lengths, places and the word `thin` are no part
    // of what the words put one behind the other.
    fn with_word(self, word: Word, text: u32) -> Sizes {
        match word {
            Word::Token(_, _) => self.with_token(),
            Word::Named(_) => self.with_token().with_name(text),
            Word::Name(_) => self.with_name(text),
            _ => self,
        }
    }

    // As often as a word stands. It makes two bytes or more, so a count that is too large ends soon. Up to a word
    // `thin` ends count four bytes each, so it should stand first where there is little room.
    fn with_times(self, word: Word, times: u32) -> Result<Sizes, Cause> {
        let text = text_bytes(word);
        let mut sizes = self;
        for _ in 0..times {
            sizes = sizes.with_word(word, text);
            if ROOM < sizes.own_length() {
                return Err(Cause::Long);
            }
        }
        Ok(sizes)
    }

    // A second length is wrong.
    fn with_length(self, n: u32) -> Result<Sizes, Cause> {
        if self.length.is_some() {
            return Err(Cause::Wrong);
        }
        if ROOM < n as usize {
            return Err(Cause::Long);
        }
        Ok(Sizes {
            length: Some(n),
            ..self
        })
    }

    // A second word `thin` is wrong.
    fn with_thin(self) -> Result<Sizes, Cause> {
        if self.thin {
            return Err(Cause::Wrong);
        }
        Ok(Sizes { thin: true, ..self })
    }

    // With what stands up to a blank, which may be nothing. A place is left to put_places.
    fn with(self, word: &[u8]) -> Result<Sizes, Cause> {
        if word.is_empty() {
            return Ok(self);
        }
        let (said, times) = reading::read(word).ok_or(Cause::Wrong)?;
        match said {
            Word::Place(_, _) => Ok(self),
            Word::Length(n) => self.with_length(n),
            Word::Thin => self.with_thin(),
            _ => self.with_times(said, times),
        }
    }
}

// How many bytes so many ends have.
fn ends_bytes(thin: bool, ends: u32) -> usize
    ensures { (result ≡ pick thin (2 * ends) (4 * ends)) × (result ≤ 4 * ends) }
{
    if thin {
        return 2 * (ends as usize);
    }
    4 * (ends as usize)
}

// How many bytes of text a word's TEXT makes, if it has one.
fn text_bytes(word: Word) -> u32 {
    match word {
        Word::Named(text) | Word::Name(text) => reading::text_bytes(text).unwrap_or(0),
        _ => 0,
    }
}

// Each word in turn, up to the first fault.
fn measure(words: &[u8]) -> Result<Sizes, Fault> {
    let mut sizes = Sizes::default();
    for (at, word) in Words::of(words) {
        match sizes.with(word) {
            Ok(more) => sizes = more,
            Err(cause) => return Err(Fault { at, cause }),
        }
    }
    Ok(sizes)
}

// A byte at a place, where there is room.
fn put_byte(s: &mut [u8], at: usize, b: u8) {
    if at < s.len() {
        s[at] = b;
    }
}

fn put_u16(s: &mut [u8], at: usize, x: u32) {
    let bytes = x.to_le_bytes();
    put_byte(s, at, bytes[0]);
    put_byte(s, at.saturating_add(1), bytes[1]);
}

// All four bytes at once where there is room.
fn put_u32(s: &mut [u8], at: usize, x: u32) {
    if at < s.len() && 4 <= s.len() - at {
        s[at..at + 4].copy_from_slice(&x.to_le_bytes());
        return;
    }
    put_u16(s, at, x);
    put_u16(s, at.saturating_add(2), x / 65536);
}

fn put_sizes(s: &mut [u8], all: Sizes) {
    put_u32(s, 0, all.token_count());
    put_u32(s, 4, all.names);
    put_u32(s, 8, all.text);
}

// In what follows `all` are the sizes of the whole sheet, and `p` those so far.

fn put_token(s: &mut [u8], all: Sizes, p: Sizes, kind: u8, value: u32) -> Sizes {
    put_byte(s, HEADER + (p.tokens as usize), kind);
    put_u32(s, all.value_at(p.tokens), value);
    p.with_token()
}

// The bytes of a TEXT from a place on: how many they are.
fn put_text(s: &mut [u8], at: usize, text: &[u8]) -> u32 {
    let mut n: u32 = 0;
    let mut rest = text;
    while let Some((byte, behind)) = reading::next_byte(rest) {
        put_byte(s, at.saturating_add(n as usize), byte);
        n = n.wrapping_add(1);
        rest = behind;
    }
    n
}

// The end of name k.
fn put_end(s: &mut [u8], all: Sizes, k: u32, end: u32) {
    if all.thin {
        put_u16(s, all.end_at(k), end);
    } else {
        put_u32(s, all.end_at(k), end);
    }
}

#[inline(always)]
fn put_name(s: &mut [u8], all: Sizes, p: Sizes, text: &[u8]) -> Sizes {
    let n = put_text(s, all.text_at(p.text), text);
    let q = p.with_name(n);
    put_end(s, all, p.names, q.text);
    q
}

fn put_word(s: &mut [u8], all: Sizes, p: Sizes, word: Word) -> Sizes {
    match word {
        Word::Token(kind, value) => put_token(s, all, p, kind, value),
        Word::Named(text) => {
            let q = put_token(s, all, p, NAME_KIND, p.names);
            put_name(s, all, q, text)
        }
        Word::Name(text) => put_name(s, all, p, text),
        _ => p,
    }
}

fn put_times(s: &mut [u8], all: Sizes, from: Sizes, word: &[u8]) -> Sizes {
    let Some((said, times)) = reading::read(word) else {
        return from;
    };
    let mut p = from;
    for _ in 0..times {
        p = put_word(s, all, p, said);
    }
    p
}

// Each word in turn.
fn put_words(s: &mut [u8], all: Sizes, words: &[u8]) {
    let mut p = Sizes::default();
    for (_, word) in Words::of(words) {
        p = put_times(s, all, p, word);
    }
}

// The number of a word that is a place, in a sheet of so many bytes; whether the place lies in it.
fn put_place(s: &mut [u8], length: usize, word: &[u8]) -> bool {
    let Some((Word::Place(place, n), _)) = reading::read(word) else {
        return true;
    };
    if length < (place as usize) + 4 {
        return false;
    }
    put_u32(s, place as usize, n);
    true
}

// Each word that is a place: the length of the sheet.
fn put_places(s: &mut [u8], length: usize, words: &[u8]) -> Result<usize, Fault> {
    for (at, word) in Words::of(words) {
        if !put_place(s, length, word) {
            let cause = Cause::Wrong;
            return Err(Fault { at, cause });
        }
    }
    Ok(length)
}

// The sheet of all words, first in a buffer, which should have ROOM bytes: how long it is. Those bytes that a /N adds
// stay as they were.
pub fn put_sheet(s: &mut [u8], words: &[u8]) -> Result<usize, Fault> {
    let all = measure(words)?;
    put_sizes(s, all);
    put_words(s, all, words);
    put_places(s, all.length(), words)
}

// The word that begins at a byte.
pub fn word_at(words: &[u8], at: usize) -> &[u8] {
    let from = at.min(words.len());
    let end = reading::end_of_word(words, from);
    &words[from..end]
}

// What stands behind a mark, which begins a word of a line.
fn behind_mark(line: &[u8], mark: u8) -> Option<&[u8]> {
    let at = print::find(line, 0, line.len(), mark);
    word_at(line, at).get(1..)
}

// The number behind a mark.
pub fn argument(line: &[u8], mark: u8) -> Option<u32> {
    reading::decimal(behind_mark(line, mark)?)
}

// Puts the bytes of a line's :TEXT first into a buffer, as far as there is room: how many they are, or that there is
// none or a wrong one.
pub fn put_named(s: &mut [u8], line: &[u8]) -> Option<u32> {
    let text = behind_mark(line, b':')?;
    if !reading::is_text(text) {
        return None;
    }
    Some(put_text(s, 0, text))
}
