// The frame of a sheet: its sizes, its length, the ends of its names and their UTF-8; and, above it, each token and
// each name. How wide the ends are is asked here, and above by what makes sheets thin or shows them.
#![tactic(auto)]

ghost use Rattle.std.specs.Prelude.{◌≡◌, ◌+◌, ◌*◌, ◌≤◌, ◌<◌, length, None};
ghost use Rattle.lists.specs.Lists.{pick};
ghost use Rattle.endian.specs.Endian.{u16_at};
ghost use Rattle.frame.specs.Limits.{max_tokens, max_names, max_text, max_depth};
ghost use Rattle.frame.specs.Inner.{max_bytes, Sized, frame_of, Sound};
ghost use Rattle.frame.specs.Sheet.{top_bit, is_thin, end_width, ends_at, text_behind, bytes_by, bytes_of, in_range};
ghost use Rattle.frame.specs.Sheet.{end_of, start_of, part_of, name_at, end_fault, name_fault, sized_fault};
ghost use Rattle.frame.specs.Doc.{doc_of, kind_of, value_of, name_of};

// The sizes of a sheet: T tokens, M names, B bytes of text.
#[derive(Clone, Copy)]
pub struct Sheet {
    pub tokens: u32,
    pub names: u32,
    pub text: u32,
}

// The sizes of the two sheets of a call.
#[derive(Clone, Copy)]
pub struct Sizes {
    pub statement: Sheet,
    pub schema: Sheet,
}

// What is wrong with a sheet: a refusal's number and place.
#[derive(Clone, Copy)]
pub struct Fault {
    pub number: u32,
    pub place: u32,
}

impl Sheet {
    pub const MAX_TOKENS: u32 = 4096;

    pub const MAX_NAMES: u32 = 1024;

    pub const MAX_TEXT: u32 = 32768;

    pub const MAX_DEPTH: u32 = 64;

    // The top bit of the token count, which marks a thin sheet; the byte that has it, and the bit in that byte.
    pub const TOP_BIT: u32 = 2147483648;

    const TOP_BYTE_AT: usize = 3;

    const TOP_OF_BYTE: u8 = 128;

    // The bytes of a name end, of one in a thin sheet, and how many fewer these are.
    const WIDE_END: usize = 4;

    const THIN_END: usize = 2;

    const FEWER: usize = Sheet::WIDE_END - Sheet::THIN_END;

    // The longest sheet: all three sizes are at their limits.
    pub const MAX_BYTES: usize = 12
        + 5 * (Sheet::MAX_TOKENS as usize)
        + 4 * (Sheet::MAX_NAMES as usize)
        + (Sheet::MAX_TEXT as usize);

    // The code's limits are the specification's.
    fn limits()
        ensures tokens { Sheet.MAX_TOKENS ≡ max_tokens }
        ensures names { Sheet.MAX_NAMES ≡ max_names }
        ensures text { Sheet.MAX_TEXT ≡ max_text }
        ensures depth { Sheet.MAX_DEPTH ≡ max_depth }
        ensures mark { Sheet.TOP_BIT ≡ top_bit }
        ensures bytes { Sheet.MAX_BYTES ≡ max_bytes }
    {}
}

// Whether each size is in its range.
fn in_range(f: Sheet) -> bool
    ensures { result ≡ in_range f }
{
    1 <= f.tokens
        && f.tokens <= Sheet::MAX_TOKENS
        && f.names <= Sheet::MAX_NAMES
        && f.text <= Sheet::MAX_TEXT
}

// Whether the sheet is thin: its name ends are u16. It serves what makes sheets thin, and what shows them.
pub fn is_thin(s: &[u8]) -> bool
    requires { 12 ≤ length s.now }
    ensures { result ≡ is_thin s.now }
{
    Sheet::TOP_OF_BYTE <= s[Sheet::TOP_BYTE_AT]
}

// Where the text begins, by whether the sheet is thin. What follows is told that, so that it is asked once.
fn text_at(f: Sheet, thin: bool) -> usize
    ensures { result ≡ text_behind (pick thin 2 4) f }
{
    let width = if thin {
        Sheet::THIN_END
    } else {
        Sheet::WIDE_END
    };
    end_at(f, width, f.names)
}

// The bytes of a name end, without a branch, since each name asks it: fewer where the top bit is set.
fn width_of(s: &[u8]) -> usize
    requires { 12 ≤ length s.now }
    ensures { result ≡ end_width s.now }
{
    Sheet::WIDE_END - Sheet::FEWER * ((s[Sheet::TOP_BYTE_AT] / Sheet::TOP_OF_BYTE) as usize)
}

// Where the end of name k stands, by the bytes of an end; with as many as there are names, where the text begins.
fn end_at(f: Sheet, width: usize, k: u32) -> usize
    requires { width ≤ 4 }
    ensures { result ≡ ends_at f + width * k }
{
    12 + 5 * (f.tokens as usize) + width * (k as usize)
}

// The length that sizes and kind make.
fn sized_length(s: &[u8], f: Sheet) -> usize
    requires { 12 ≤ length s.now }
    ensures { result ≡ bytes_by (end_width s.now) f }
{
    end_at(f, width_of(s), f.names) + (f.text as usize)
}

// The length of a sheet of these sizes whose ends are u32. It serves the crates above, which write sheets.
pub fn length_of(f: Sheet) -> usize
    ensures { result ≡ bytes_of f }
{
    end_at(f, Sheet::WIDE_END, f.names) + (f.text as usize)
}

// The end of name k in the text.
fn end_of(s: &[u8], f: Sheet, thin: bool, k: u32) -> u32
    requires sized { Sized s.now f }
    requires thin_value { thin ≡ is_thin s.now }
    requires k_lt_names { k < f.names }
    ensures { result ≡ end_of s.now f k }
{
    if thin {
        endian::u16_at(s, end_at(f, Sheet::THIN_END, k))
    } else {
        endian::u32_at(s, end_at(f, Sheet::WIDE_END, k))
    }
}

// Its start.
fn start_of(s: &[u8], f: Sheet, thin: bool, k: u32) -> u32
    requires sized { Sized s.now f }
    requires thin_value { thin ≡ is_thin s.now }
    requires k_lt_names { k < f.names }
    ensures { result ≡ start_of s.now f k }
{
    if k == 0 { 0 } else { end_of(s, f, thin, k - 1) }
}

// The first name whose end is below its start or past the text; or the number of names, where the last end stops
// short of the text's.
fn end_fault(s: &[u8], f: Sheet) -> Option<Fault>
    requires { Sized s.now f }
    ensures { result ≡ end_fault s.now f 0 f.names }
{
    let names = f.names;
    let text = f.text;
    let thin = is_thin(s);
    let mut last: u32 = 0;
    for k in 0..names {
        let end = end_of(s, f, thin, k);
        if end < last || text < end {
            return Some(Fault {
                number: 4,
                place: k,
            });
        }
        last = end;
    }
    if last < text {
        return Some(Fault {
            number: 4,
            place: names,
        });
    }
    None
}

// A part of the text.
fn part(s: &[u8], f: Sheet, thin: bool, from: u32, to: u32) -> &[u8]
    requires sized { Sized s.now f }
    requires thin_value { thin ≡ is_thin s.now }
    requires from_le_to { (from ≤ to) × (to ≤ f.text) }
    ensures { result.now ≡ part_of s.now f from to }
{
    let text = text_at(f, thin);
    let a = text + (from as usize);
    let e = text + (to as usize);
    &s[a..e]
}

// Where the text begins: it is the sheet's last bytes.
fn text_start(s: &[u8], f: Sheet) -> usize
    requires { Sized s.now f }
    ensures { result ≡ text_behind (end_width s.now) f }
{
    s.len() - (f.text as usize)
}

// The first two bytes of an end.
fn short_at(s: &[u8], at: usize) -> usize
    requires { at + 2 ≤ length s.now }
    ensures { result ≡ u16_at s.now at }
{
    endian::u16_at(s, at) as usize
}

// Name k where the ends have no fault: no end then passes 32,768, so its first two bytes say it, whatever its width.
fn named(s: &[u8], f: Sheet, k: u32) -> &[u8]
    requires sized { Sized s.now f }
    requires names_value { end_fault s.now f 0 f.names ≡ None }
    requires k_lt_names { k < f.names }
    ensures { result.now ≡ name_at s.now f k }
{
    let width = width_of(s);
    let at = end_at(f, width, k);
    let text = text_start(s, f);
    let to = text + short_at(s, at);
    if k == 0 {
        return &s[text..to];
    }
    let from = text + short_at(s, at - width);
    &s[from..to]
}

// The first name that is not UTF-8.
fn name_fault(s: &[u8], f: Sheet) -> Option<Fault>
    requires sized { Sized s.now f }
    requires names_value { end_fault s.now f 0 f.names ≡ None }
    ensures { result ≡ name_fault s.now f 0 f.names }
{
    let names = f.names;
    for k in 0..names {
        if !utf8::is_utf8(named(s, f, k)) {
            return Some(Fault {
                number: 5,
                place: k,
            });
        }
    }
    None
}

// What is wrong with a sheet of these sizes: 2 to 5, in turn.
fn sized_fault(s: &[u8], f: Sheet) -> Option<Fault>
    requires { 12 ≤ length s.now }
    ensures { result ≡ sized_fault s.now f }
{
    if !in_range(f) {
        return Some(Fault {
            number: 2,
            place: 0,
        });
    }
    if s.len() != sized_length(s, f) {
        return Some(Fault {
            number: 3,
            place: 0,
        });
    }
    end_fault(s, f).or_else(|| name_fault(s, f))
}

// The sheet's sizes, or why it is refused: any bytes get one of the two. It serves the crates above, which know the
// sheet's number.
pub fn read(s: &[u8]) -> Result<Sheet, Fault>
    ensures { result ≡ frame_of s.now }
{
    if s.len() < 12 {
        return Err(Fault {
            number: 1,
            place: 0,
        });
    }
    let f = Sheet {
        tokens: endian::u32_at(s, 0) % Sheet::TOP_BIT,
        names: endian::u32_at(s, 4),
        text: endian::u32_at(s, 8),
    };
    match sized_fault(s, f) {
        Some(fault) => Err(fault),
        None => Ok(f),
    }
}

// The kind of token i.
pub fn kind(s: &[u8], f: Sheet, i: u32) -> u8
    requires sound { Sound s.now f }
    requires i_lt_tokens { i < f.tokens }
    ensures { result ≡ kind_of (doc_of s.now) i }
{
    s[12 + (i as usize)]
}

// The value of token i.
pub fn value(s: &[u8], f: Sheet, i: u32) -> u32
    requires sound { Sound s.now f }
    requires i_lt_tokens { i < f.tokens }
    ensures { result ≡ value_of (doc_of s.now) i }
{
    let at = 12 + (f.tokens as usize) + 4 * (i as usize);
    endian::u32_at(s, at)
}

// Name k, as a part of the sheet.
pub fn name(s: &[u8], f: Sheet, k: u32) -> &[u8]
    requires sound { Sound s.now f }
    requires k_lt_names { k < f.names }
    ensures { result.now ≡ name_of (doc_of s.now) k }
{
    let thin = is_thin(s);
    let from = start_of(s, f, thin, k);
    let to = end_of(s, f, thin, k);
    part(s, f, thin, from, to)
}
