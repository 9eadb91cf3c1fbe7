// Makes a sheet thin in a lent buffer: its document is read and put with u16 ends. A sheet that is thin is copied.
#![tactic(auto)]

ghost use Rattle.std.specs.Prelude.{◌≡◌, ◌++◌, ◌+◌, ◌*◌, ◌≤◌, ◌<◌, length, drop};
ghost use Rattle.std.proofs.lemmas.List.Edits.{sets};
ghost use Rattle.endian.specs.Endian.{u16_of};
ghost use Rattle.frame.specs.Limits.{max_tokens, max_names, max_text};
ghost use Rattle.frame.specs.Sheet.{bytes_by, bytes_of};
ghost use Rattle.frame.specs.Doc.{doc_of};
ghost use Rattle.frame.specs.Inner.{Sound};
ghost use Rattle.written.specs.Written.{text_in, ends_from};
ghost use Rattle.written.specs.Inner.{TokensPut, TextPut};
ghost use Rattle.thinned.specs.Inner.{layout_of};
ghost use Rattle.thinned.specs.Thinned.{u16s, thin_sizes, thinned, thin_of};

use frame::Sheet;

// The sizes by which `written` puts what stands behind a thin sheet's own: the ends are a part of the text.
fn layout_of(f: Sheet) -> Sheet
    requires names_le_max_names { f.names ≤ max_names }
    requires text_le_max_text { f.text ≤ max_text }
    ensures { result ≡ layout_of f }
{
    Sheet {
        tokens: f.tokens,
        names: 0,
        text: 2 * f.names + f.text,
    }
}

// The length of a thin sheet. It serves the crate above, which asks whether there is room.
pub fn length_of(f: Sheet) -> usize
    requires names_le_max_names { f.names ≤ max_names }
    requires text_le_max_text { f.text ≤ max_text }
    ensures { result ≡ bytes_by 2 f }
{
    frame::length_of(layout_of(f))
}

// Puts the tokens.
fn put_tokens(h: Sheet, s: &[u8], f: Sheet, out: &mut [u8])
    requires h_in_bounds { bytes_of h ≤ length out.old }
    requires sound { Sound s.now f }
    requires h_value { h ≡ layout_of f }
    ensures { TokensPut h 0 (doc_of s.now).tokens out.old out.new }
{
    for i in 0..f.tokens {
        let kind = frame::kind(s, f, i);
        let value = frame::value(s, f, i);
        written::put_token(h, i, kind, value, out);
    }
}

// Puts the end of name k, in two bytes.
fn put_end(h: Sheet, k: u32, end: u32, out: &mut [u8])
    requires h_in_bounds { bytes_of h ≤ length out.old }
    requires k_lt_max_names { k < max_names }
    requires k_bound { 2 * k + 2 ≤ h.text }
    ensures { TextPut h (2 * k) (u16_of end) out.old out.new }
{
    written::put_byte(h, 2 * k, (end % 256) as u8, out);
    written::put_byte(h, 2 * k + 1, (end / 256 % 256) as u8, out);
}

// Puts the ends of the names.
fn put_ends(h: Sheet, s: &[u8], f: Sheet, out: &mut [u8])
    requires h_in_bounds { bytes_of h ≤ length out.old }
    requires sound { Sound s.now f }
    requires h_value { h ≡ layout_of f }
    ensures { TextPut h 0 (u16s (ends_from 0 (doc_of s.now).names)) out.old out.new }
{
    let mut end: u32 = 0;
    for k in 0..f.names {
        let name = frame::name(s, f, k);
        end += name.len() as u32;
        put_end(h, k, end, out);
    }
}

// Puts the text of the names behind their ends.
fn put_text(h: Sheet, s: &[u8], f: Sheet, out: &mut [u8])
    requires h_in_bounds { bytes_of h ≤ length out.old }
    requires sound { Sound s.now f }
    requires h_value { h ≡ layout_of f }
    ensures { TextPut h (2 * f.names) (text_in (doc_of s.now).names) out.old out.new }
{
    let mut at = 2 * f.names;
    for k in 0..f.names {
        let name = frame::name(s, f, k);
        written::put_text(h, at, name, out);
        at += name.len() as u32;
    }
}

// Puts a thin sheet's sizes: the token count has its top bit set.
fn put_sizes(f: Sheet, out: &mut [u8])
    requires in_bounds { 12 ≤ length out.old }
    requires tokens_le_max_tokens { f.tokens ≤ max_tokens }
    ensures { out.new ≡ sets out.old 0 (thin_sizes f) }
{
    endian::put_u32(Sheet::TOP_BIT + f.tokens, 0, out);
    endian::put_u32(f.names, 4, out);
    endian::put_u32(f.text, 8, out);
}

// Puts a sheet's document as a thin sheet. The sizes of the layout come first, and at last the sheet's own over them.
fn put_document(s: &[u8], f: Sheet, out: &mut [u8])
    requires sound { Sound s.now f }
    requires f_in_bounds { bytes_by 2 f ≤ length out.old }
    ensures { out.new ≡ thinned (doc_of s.now) ++ drop (length (thinned (doc_of s.now))) out.old }
{
    let h = layout_of(f);
    written::put_sizes(h, out);
    put_tokens(h, s, f, out);
    put_ends(h, s, f, out);
    put_text(h, s, f, out);
    put_sizes(f, out);
}

// Copies a sheet.
fn copy(s: &[u8], out: &mut [u8])
    requires { length s.now ≤ length out.old }
    ensures { out.new ≡ s.now ++ drop (length s.now) out.old }
{
    lists::copy(s, &mut out[..s.len()]);
}

// Puts a sheet as a thin one. It serves the crate above, which knows that there is room.
pub fn put_thin(s: &[u8], f: Sheet, out: &mut [u8])
    requires sound { Sound s.now f }
    requires f_in_bounds { bytes_by 2 f ≤ length out.old }
    ensures { out.new ≡ thin_of s.now ++ drop (length (thin_of s.now)) out.old }
{
    if frame::is_thin(s) {
        copy(s, out);
        return;
    }
    put_document(s, f, out);
}
