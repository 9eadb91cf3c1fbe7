// What puts a text into a lent buffer, piece by piece. A piece is copied as far as the buffer goes, and counted
// whole: over a buffer without room, nothing but the length is found.
#![tactic(auto)]

ghost use Rattle.std.specs.Prelude.{[], ◌∷◌, ◌++◌, ◌+◌, ◌≤◌, ◌<◌, length};
ghost use Rattle.phrase.specs.Phrase.{digits, decimal};
ghost use Rattle.phrase.specs.Inner.{Put};

pub mod keys;
pub mod names;
pub mod type_names;

// A piece, from `at` on: where it ends.
pub fn put(piece: &[u8], at: usize, text: &mut [u8]) -> usize
    requires { at < 4611686018427387904 }
    ensures { Put piece.now at text.old result text.new }
{
    let start = at.min(text.len());
    let many = piece.len().min(text.len() - start);
    lists::copy(&piece[..many], &mut text[start..start + many]);
    at + piece.len()
}

// Two pieces, one behind the other.
fn put_both(first: &[u8], second: &[u8], at: usize, text: &mut [u8]) -> usize
    requires { at + length first.now < 4611686018427387904 }
    ensures { Put (first.now ++ second.now) at text.old result text.new }
{
    let end = put(first, at, text);
    put(second, end, text)
}

// A digit.
fn put_digit(n: u32, at: usize, text: &mut [u8]) -> usize
    requires n_bound { n < 10 }
    requires at_bound { at < 4611686018427387904 }
    ensures { Put ((48 + n) ∷ []) at text.old result text.new }
{
    put(&[b'0' + n as u8], at, text)
}

// The digits of a number that has at most `left` of them.
fn put_digits(left: u32, n: u32, at: usize, text: &mut [u8]) -> usize
    requires { at < 2305843009213693952 }
    ensures { Put (digits left n) at text.old result text.new × (result ≤ at + left) }
{
    if left == 0 {
        return at;
    }
    if n < 10 {
        return put_digit(n, at, text);
    }
    let end = put_digits(left - 1, n / 10, at, text);
    put_digit(n % 10, end, text)
}

// A number in base ten, without leading zeros.
pub fn put_decimal(n: u32, at: usize, text: &mut [u8]) -> usize
    requires { at < 2305843009213693952 }
    ensures { Put (decimal n) at text.old result text.new × (result ≤ at + 10) }
{
    put_digits(10, n, at, text)
}
