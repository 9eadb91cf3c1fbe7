// A document's sheet, written piece by piece into a lent buffer: its sizes, then its tokens, the ends of its names and
// its text, each from the first on. A caller names tokens, names and places of the text, and no place of a byte.
#![tactic(auto)]

ghost use Rattle.std.specs.Prelude.{◌≡◌, ◌+◌, ◌≤◌, ◌<◌, [], ◌∷◌, length};
ghost use Rattle.frame.specs.Sheet.{text_at, bytes_of};
ghost use Rattle.written.specs.Inner.{Begun, TokensPut, EndsPut, TextPut};

use frame::Sheet;

// The three sizes.
pub fn put_sizes(f: Sheet, out: &mut [u8])
    requires { bytes_of f ≤ length out.old }
    ensures { Begun f [] [] [] out.old out.new }
{
    endian::put_u32(f.tokens, 0, out);
    endian::put_u32(f.names, 4, out);
    endian::put_u32(f.text, 8, out);
}

// Token i.
pub fn put_token(f: Sheet, i: u32, kind: u8, value: u32, out: &mut [u8])
    requires f_in_bounds { bytes_of f ≤ length out.old }
    requires i_lt_tokens { i < f.tokens }
    ensures { TokensPut f i (record { kind = kind; value = value } ∷ []) out.old out.new }
{
    let at = 12 + (i as usize);
    out[at] = kind;
    endian::put_u32(value, 12 + (f.tokens as usize) + 4 * (i as usize), out);
}

// The end of name k in the text.
pub fn put_end(f: Sheet, k: u32, end: u32, out: &mut [u8])
    requires f_in_bounds { bytes_of f ≤ length out.old }
    requires k_lt_names { k < f.names }
    ensures { EndsPut f k (end ∷ []) out.old out.new }
{
    endian::put_u32(end, 12 + 5 * (f.tokens as usize) + 4 * (k as usize), out);
}

// Where place `at` of the text stands.
fn place_of(f: Sheet, at: u32) -> usize
    ensures { result ≡ text_at f + at }
{
    12 + 5 * (f.tokens as usize) + 4 * (f.names as usize) + (at as usize)
}

// A byte of the text, at place `at` of it.
pub fn put_byte(f: Sheet, at: u32, byte: u8, out: &mut [u8])
    requires f_in_bounds { bytes_of f ≤ length out.old }
    requires at_lt_text { at < f.text }
    ensures { TextPut f at (byte ∷ []) out.old out.new }
{
    let place = place_of(f, at);
    out[place] = byte;
}

// A piece of the text, from place `at` of it on.
pub fn put_text(f: Sheet, at: u32, piece: &[u8], out: &mut [u8])
    requires f_in_bounds { bytes_of f ≤ length out.old }
    requires piece_bound { at + length piece.now ≤ f.text }
    ensures { TextPut f at piece.now out.old out.new }
{
    let from = place_of(f, at);
    lists::copy(piece, &mut out[from..from + piece.len()]);
}
