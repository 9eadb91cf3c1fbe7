// One word: where it ends, and what it says. A word is read whole, and each of its numbers must be in its range.
ghost use Rattle.std.specs.Prelude.{◌≡◌, ◌-◌, ◌<◌, ◌≤◌, length, IfSome};
ghost use Rattle.std.specs.Iterator.{at_most};
ghost use Rattle.notation.specs.Digits.{one_more, number_of};

// What a word says: a token's kind and value; a Name token with a name of that TEXT; a name alone; a place and its
// number; a length; or that the sheet is thin.
#[derive(Clone, Copy)]
pub enum Word<'a> {
    Token(u8, u32),
    Named(&'a [u8]),
    Name(&'a [u8]),
    Place(u32, u32),
    Length(u32),
    Thin,
}

// Words one by one, each with the byte at which it begins. Between two blanks there is one without a byte.
#[derive(Drop)]
pub struct Words<'a> {
    all: &'a [u8],
    at: usize,
}

impl<'a> Iterator for Words<'a> {
    type Item = (usize, &'a [u8]);

    ghost remaining = { λ s. at_most (length s.all.now - s.at) };

    fn next(&mut self) -> Option<(usize, &'a [u8])> {
        let at = self.at;
        if self.all.len() <= at {
            return None;
        }
        let end = end_of_word(self.all, at);
        self.at = next_word(self.all, end);
        Some((at, &self.all[at..end]))
    }
}

impl<'a> Words<'a> {
    pub fn of(all: &'a [u8]) -> Words<'a> {
        Words { all, at: 0 }
    }
}

// Whether no word goes on with a byte.
fn ends_word(b: u8) -> bool {
    matches!(b, b' ' | b'\t' | b'\n' | b'#')
}

// Where the word from a byte on ends.
pub fn end_of_word(words: &[u8], from: usize) -> usize
    requires { from ≤ length words.now }
    ensures { (from ≤ result) × (result ≤ length words.now) }
{
    for i in from..words.len() {
        if ends_word(words[i]) {
            return i;
        }
    }
    words.len()
}

// Where the next word begins, behind the byte at which one ends, or behind the comment that begins there. A comment goes
// to the end of its line; a return in it begins a word, which is wrong, so that no line is lost in a comment.
fn next_word(words: &[u8], end: usize) -> usize
    requires { end ≤ length words.now }
    ensures { end < result }
{
    if end == words.len() || words[end] != b'#' {
        return end + 1;
    }
    let line = print::find(words, end + 1, words.len(), b'\n');
    let back = print::find(words, end + 1, line, b'\r');
    if back < line { back } else { line + 1 }
}

// A number with one digit more.
fn longer(n: u32, b: u8) -> Option<u32>
    ensures { result ≡ one_more n b }
{
    match b {
        b'0'..=b'9' => u32::try_from(10 * (n as u64) + ((b - b'0') as u64)).ok(),
        _ => None,
    }
}

// The number whose digits all bytes are.
pub fn decimal(digits: &[u8]) -> Option<u32>
    ensures { result ≡ number_of digits.now }
{
    if digits.is_empty() {
        return None;
    }
    let mut n: u32 = 0;
    for b in digits {
        n = longer(n, *b)?;
    }
    Some(n)
}

// The number up to the first dot, and the one behind it.
fn dotted(s: &[u8]) -> Option<(u32, Option<u32>)> {
    let dot = print::find(s, 0, s.len(), b'.');
    let first = decimal(&s[..dot])?;
    if dot == s.len() {
        return Some((first, None));
    }
    let second = decimal(&s[dot + 1..])?;
    Some((first, Some(second)))
}

fn read_token(word: &[u8]) -> Option<Word> {
    let (kind, value) = dotted(word)?;
    Some(Word::Token(u8::try_from(kind).ok()?, value.unwrap_or(0)))
}

// A place has both numbers.
fn read_place(s: &[u8]) -> Option<Word> {
    match dotted(s)? {
        (place, Some(n)) => Some(Word::Place(place, n)),
        (_, None) => None,
    }
}

// A word without a star: its first byte says what it is.
fn read_single(word: &[u8]) -> Option<Word> {
    match word {
        b"thin" => Some(Word::Thin),
        [b':', text @ ..] if is_text(text) => Some(Word::Named(text)),
        [b'\'', text @ ..] if is_text(text) => Some(Word::Name(text)),
        [b'@', place @ ..] => read_place(place),
        [b'/', digits @ ..] => Some(Word::Length(decimal(digits)?)),
        _ => read_token(word),
    }
}

// A word that stands several times is a token or a name.
fn may_repeat(word: Word) -> bool {
    matches!(word, Word::Token(_, _) | Word::Named(_) | Word::Name(_))
}

// What a word says, and how often it stands: as the number behind its star says, which is not 0, or once.
pub fn read(word: &[u8]) -> Option<(Word, u32)> {
    let star = print::find(word, 0, word.len(), b'*');
    let single = read_single(&word[..star])?;
    if star == word.len() {
        return Some((single, 1));
    }
    let times = decimal(&word[star + 1..])?;
    if times == 0 || !may_repeat(single) {
        return None;
    }
    Some((single, times))
}

// What a digit in base sixteen stands for.
fn digit(b: u8) -> Option<u8>
    ensures { IfSome result (λ d. d < 16) }
{
    match b {
        b'0'..=b'9' => Some(b - b'0'),
        b'A'..=b'F' => Some(b - b'A' + 10),
        b'a'..=b'f' => Some(b - b'a' + 10),
        _ => None,
    }
}

// Whether a byte of a TEXT stands for itself.
fn is_plain(b: u8) -> bool {
    !matches!(b, 0..=b' ' | b'#' | b'*' | b'/' | b'\\' | 127)
}

// The byte that two digits in base sixteen stand for, behind a backslash, and the TEXT behind them.
#[inline(never)]
fn in_sixteen(text: &[u8]) -> Option<(u8, &[u8])>
    ensures { IfSome result (λ next. length next.1.now ≤ length text.now) }
{
    match text {
        [high, low, rest @ ..] => {
            let (high, low) = (digit(*high)?, digit(*low)?);
            Some((16 * high + low, rest))
        }
        _ => None,
    }
}

// The first byte of text that a TEXT makes, and the TEXT behind it: two digits in base sixteen behind a backslash, or a
// byte that stands for itself. None where nothing else may stand in a TEXT. It stands in the loops that call it for each
// byte, and the digits, which are few, in none of them.
#[inline(always)]
pub fn next_byte(text: &[u8]) -> Option<(u8, &[u8])>
    ensures { IfSome result (λ next. length next.1.now < length text.now) }
{
    match text {
        [b'\\', rest @ ..] => in_sixteen(rest),
        [b, rest @ ..] if is_plain(*b) => Some((*b, rest)),
        _ => None,
    }
}

// How many bytes of text a TEXT makes; none where it is no TEXT. Where each byte stands for itself they are as many.
pub fn text_bytes(text: &[u8]) -> Option<u32> {
    match u32::try_from(text.len()) {
        Ok(n) if text.iter().all(|b| is_plain(*b)) => Some(n),
        _ => bytes_one_by_one(text),
    }
}

fn bytes_one_by_one(text: &[u8]) -> Option<u32> {
    let mut n: u32 = 0;
    let mut rest = text;
    while !rest.is_empty() {
        let (_, behind) = next_byte(rest)?;
        rest = behind;
        n = n.wrapping_add(1);
    }
    Some(n)
}

pub fn is_text(text: &[u8]) -> bool {
    text_bytes(text).is_some()
}
