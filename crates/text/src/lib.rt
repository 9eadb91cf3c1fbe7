// Texts compared: all comparison of names goes by `same_text` and `compare`, or by `same_folded` and `compare_folded`
// where the ASCII letters are alike in either case. They look at pairs of bytes, byte i of the one text and of the
// other, from the start on, stop at the first pair that differs, and count the pairs as they go.
#![tactic(auto)]

ghost use Rattle.std.specs.Prelude.{ℕ, ◌≡◌, ◌+◌, ◌≤◌, ◌<◌, length, get_or, map};
ghost use Rattle.text.specs.Text.{same_text, order_of};
ghost use Rattle.text.specs.Folded.{lower, folded, same_folded};
ghost use Rattle.text.specs.BytePairs.{common_start, order_pairs, same_pairs};
ghost use Rattle.text.specs.Inner.{number_order, shorter_of, Told};

pub use std::cmp::Ordering;

// At most so many pairs are looked at in a turn.
const STEP: usize = 4;

// How the bytes of a text are read where two texts are compared.
trait Reading {
    ghost read: { ℕ → ℕ };

    fn read(b: u8) -> u8
        ensures { result ≡ read b };
}

// Each byte is itself.
struct AsWritten;

impl Reading for AsWritten {
    ghost read = { λ b. b };

    fn read(b: u8) -> u8 {
        b
    }
}

// A capital letter of the 26 ASCII letters is its small one, and every other byte itself. No text is folded: each byte
// is lowered as it is looked at.
struct InAnyCase;

impl Reading for InAnyCase {
    ghost read = { lower };

    #[tactic(auto, unfolding(crate::specs::Folded::lower))]
    fn read(b: u8) -> u8 {
        b.to_ascii_lowercase()
    }
}

// The length of the shorter text.
fn shorter(a: &[u8], b: &[u8]) -> usize
    ensures { result ≡ shorter_of a.now b.now }
{
    a.len().min(b.len())
}

// How byte i of one text stands to byte i of the other, where all pairs before are equal. Nothing else here reads a
// byte.
fn pair_order<R: Reading>(a: &[u8], b: &[u8], i: usize) -> Ordering
    requires i_in_bounds { (i < length a.now) × (i < length b.now) }
    requires i_bound { i ≤ common_start (map R.read a.now) (map R.read b.now) }
    ensures { result ≡ number_order (R.read (get_or a.now i 0)) (R.read (get_or b.now i 0)) }
{
    R::read(a[i]).cmp(&R::read(b[i]))
}

// Looks at the next pair, after so many that are equal, and counts it.
fn look_at<R: Reading>(a: &[u8], b: &[u8], pairs: &mut usize) -> Ordering
    requires pairs_in_bounds { (pairs.old < length a.now) × (pairs.old < length b.now) }
    requires pairs_bound { pairs.old ≤ common_start (map R.read a.now) (map R.read b.now) }
    ensures value { result ≡ number_order (R.read (get_or a.now pairs.old 0)) (R.read (get_or b.now pairs.old 0)) }
    ensures pairs_after { pairs.new ≡ pairs.old + 1 }
{
    let i = *pairs;
    *pairs = i + 1;
    pair_order::<R>(a, b, i)
}

// The next pair too, unless the last one differs.
fn look_on<R: Reading>(a: &[u8], b: &[u8], last: Ordering, pairs: &mut usize) -> Ordering
    requires pairs_in_bounds { (pairs.old < length a.now) × (pairs.old < length b.now) }
    requires told { Told (map R.read a.now) (map R.read b.now) last pairs.old }
    ensures told_2 { Told (map R.read a.now) (map R.read b.now) result pairs.new }
    ensures pairs_le_pairs { (pairs.old ≤ pairs.new) × (pairs.new ≤ pairs.old + 1) }
{
    if last.is_ne() {
        return last;
    }
    look_at::<R>(a, b, pairs)
}

// Looks at a step of pairs, after so many that are equal: at all of them, or up to the first that differs.
fn look_step<R: Reading>(a: &[u8], b: &[u8], pairs: &mut usize) -> Ordering
    requires pairs_in_bounds { (pairs.old + 4 ≤ length a.now) × (pairs.old + 4 ≤ length b.now) }
    requires pairs_bound { pairs.old ≤ common_start (map R.read a.now) (map R.read b.now) }
    ensures told { Told (map R.read a.now) (map R.read b.now) result pairs.new }
    ensures pairs_lt_pairs { pairs.old < pairs.new }
{
    let one = look_at::<R>(a, b, pairs);
    let two = look_on::<R>(a, b, one, pairs);
    let three = look_on::<R>(a, b, two, pairs);
    look_on::<R>(a, b, three, pairs)
}

// Looks at the pairs that are left, one by one, of texts of which the shorter has n bytes. Where that is spent the
// lengths decide. The caller's number counts the pairs, so no `for` does.
fn look_rest<R: Reading>(a: &[u8], b: &[u8], n: usize, pairs: &mut usize) -> Ordering
    requires n_value { n ≡ shorter_of a.now b.now }
    requires pairs_bound { pairs.old ≤ common_start (map R.read a.now) (map R.read b.now) }
    ensures value { result ≡ order_of (map R.read a.now) (map R.read b.now) }
    ensures pairs_after { pairs.new ≡ order_pairs (map R.read a.now) (map R.read b.now) }
{
    while *pairs < n {
        let next = look_at::<R>(a, b, pairs);
        if next.is_ne() {
            return next;
        }
    }
    a.len().cmp(&b.len())
}

// The order of two texts: looks at a step of pairs in each turn, and at the rest where less than a step is left.
// The caller's number counts the pairs, so no `for` does.
fn look_order<R: Reading>(a: &[u8], b: &[u8], pairs: &mut usize) -> Ordering
    requires { pairs.old ≡ 0 }
    ensures value { result ≡ order_of (map R.read a.now) (map R.read b.now) }
    ensures pairs_after { pairs.new ≡ order_pairs (map R.read a.now) (map R.read b.now) }
{
    let n = shorter(a, b);
    while STEP <= n - *pairs {
        let order = look_step::<R>(a, b, pairs);
        if order.is_ne() {
            return order;
        }
    }
    look_rest::<R>(a, b, n, pairs)
}

// Whether two texts are the same: looks at pairs only where they are of one length.
fn look_same<R: Reading>(a: &[u8], b: &[u8], pairs: &mut usize) -> bool
    requires { pairs.old ≡ 0 }
    ensures value { result ≡ same_text (map R.read a.now) (map R.read b.now) }
    ensures pairs_after { pairs.new ≡ same_pairs (map R.read a.now) (map R.read b.now) }
{
    if a.len() != b.len() {
        return false;
    }
    look_order::<R>(a, b, pairs).is_eq()
}

// Whether two texts are equal: by their lengths, then up to the first byte that differs.
pub fn same_text(a: &[u8], b: &[u8]) -> bool
    ensures { result ≡ same_text a.now b.now }
{
    let mut pairs: usize = 0;
    look_same::<AsWritten>(a, b, &mut pairs)
}

// The order of two texts by their bytes, up to the first byte that differs.
pub fn compare(a: &[u8], b: &[u8]) -> Ordering
    ensures { result ≡ order_of a.now b.now }
{
    let mut pairs: usize = 0;
    look_order::<AsWritten>(a, b, &mut pairs)
}

// Whether two texts are equal, with the ASCII letters alike in either case.
pub fn same_folded(a: &[u8], b: &[u8]) -> bool
    ensures { result ≡ same_folded a.now b.now }
{
    let mut pairs: usize = 0;
    look_same::<InAnyCase>(a, b, &mut pairs)
}

// The order of two texts by their bytes, with the capital ASCII letters taken for their small ones.
pub fn compare_folded(a: &[u8], b: &[u8]) -> Ordering
    ensures { result ≡ order_of (folded a.now) (folded b.now) }
{
    let mut pairs: usize = 0;
    look_order::<InAnyCase>(a, b, &mut pairs)
}
