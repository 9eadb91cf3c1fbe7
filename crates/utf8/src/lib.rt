// UTF-8 as RFC 3629 defines it.
#![tactic(auto)]

ghost use Rattle.std.specs.Prelude.{◌≡◌, ◌+◌, ◌≤◌, ◌<◌, length, drop};
ghost use Rattle.utf8.specs.Utf8.{tails, fresh, lead_of, step_of, goes_on, utf8};

// Bytes below it are characters of one byte.
const ASCII_END: u8 = 0x80;

// So many bytes are looked at together.
const STEP: usize = 8;

// Where a reader stands: how many bytes of the character are to come, and the range of the next one.
#[derive(Clone, Copy)]
pub struct State {
    pub more: u8,
    pub low: u8,
    pub high: u8,
}

fn awaits(more: u8, low: u8, high: u8) -> State
    ensures { result ≡ tails more low high }
{
    State { more, low, high }
}

// What the first byte of a character asks of those after it; more than the text has where it is no first byte.
fn lead(b: u8) -> State
    ensures { result ≡ lead_of b }
{
    match b {
        0x00..=0x7f => awaits(0, 0x80, 0xbf),
        0xc2..=0xdf => awaits(1, 0x80, 0xbf),
        0xe0 => awaits(2, 0xa0, 0xbf),
        0xe1..=0xec => awaits(2, 0x80, 0xbf),
        0xed => awaits(2, 0x80, 0x9f),
        0xee..=0xef => awaits(2, 0x80, 0xbf),
        0xf0 => awaits(3, 0x90, 0xbf),
        0xf1..=0xf3 => awaits(3, 0x80, 0xbf),
        0xf4 => awaits(3, 0x80, 0x8f),
        _ => awaits(1, 1, 0),
    }
}

// The state after one more byte.
fn step(st: State, b: u8) -> State
    ensures { result ≡ step_of st b }
{
    if st.more == 0 {
        lead(b)
    } else if st.low <= b && b <= st.high {
        awaits(st.more - 1, 0x80, 0xbf)
    } else {
        awaits(1, 1, 0)
    }
}

// The bits of a step of bytes, together: no byte of the step is more, so below `ASCII_END` they are all ASCII.
fn all_bits(s: &[u8], i: usize) -> u8
    requires { i + 8 ≤ length s.now }
    ensures { result < 0x80 → goes_on fresh (drop (i + 8) s.now) ≡ goes_on fresh (drop i s.now) }
{
    s[i] | s[i + 1] | s[i + 2] | s[i + 3] | s[i + 4] | s[i + 5] | s[i + 6] | s[i + 7]
}

// Where the steps of ASCII from `from` on end. The place is the result, so a `while` is plainest.
fn ascii_steps(s: &[u8], from: usize) -> usize
    requires { from ≤ length s.now }
    ensures { (from ≤ result) × (result ≤ length s.now) × (goes_on fresh (drop result s.now) ≡ goes_on fresh (drop from s.now)) }
{
    let mut i = from;
    while STEP <= s.len() - i {
        if ASCII_END <= all_bits(s, i) {
            return i;
        }
        i += STEP;
    }
    i
}

// Where the run of ASCII from `from` on ends.
fn ascii_end(s: &[u8], from: usize) -> usize
    requires { from ≤ length s.now }
    ensures { (from ≤ result) × (result ≤ length s.now) × (goes_on fresh (drop result s.now) ≡ goes_on fresh (drop from s.now)) }
{
    for i in ascii_steps(s, from)..s.len() {
        if ASCII_END <= s[i] {
            return i;
        }
    }
    s.len()
}

// Where the next byte to step over is: between two characters, past the ASCII. The first byte is looked at alone, since
// ASCII seldom follows a longer character.
fn onward(s: &[u8], st: State, from: usize) -> usize
    requires { from ≤ length s.now }
    ensures { (from ≤ result) × (result ≤ length s.now) × (goes_on st (drop result s.now) ≡ goes_on st (drop from s.now)) }
{
    if st.more != 0 || s.len() <= from || ASCII_END <= s[from] {
        return from;
    }
    ascii_end(s, from)
}

// Whether `s` is UTF-8. `onward` finds the next place, so no `for` counts it.
pub fn is_utf8(s: &[u8]) -> bool
    ensures { result ≡ utf8 s.now }
{
    let mut st = awaits(0, 0x80, 0xbf);
    let mut i = ascii_end(s, 0);
    while i < s.len() {
        st = step(st, s[i]);
        i = onward(s, st, i + 1);
    }
    st.more == 0
}
