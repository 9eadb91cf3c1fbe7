// A number for each name of two sheets, which equal texts alone share, so that whoever stands above can compare numbers.
// A number whose text may differ from another in the case of letters alone has a mark.
#![tactic(auto)]

ghost use Rattle.std.specs.Prelude.{◌≡◌, ◌+◌, ◌-◌, ◌/◌, ◌%◌, ◌≤◌, ◌<◌, length, drop, set};
ghost use Rattle.std.specs.Int.Bits.{bit_and};
ghost use Rattle.endian.specs.Endian.{u32_at};
ghost use Rattle.text.specs.Text.{same_text};
ghost use Rattle.frame.specs.Inner.{Sound};
ghost use Rattle.numbers.specs.Least.{all_names, texts_of, text_at, least_same, Numbered};
ghost use Rattle.numbers.specs.Chains.{mix_of, few_of, size_of, steps_of, caseless_of, hash_of, marks_with, chain_of, last_in, Heads, Links, HashMarks};
ghost use Rattle.numbers.specs.Alike.{Marked};

use frame::{Sheet, Sizes};

// So many bytes of a text are mixed into its hash together, as two numbers of half as many, each masked before.
const STEP: usize = 8;

const HALF: usize = 4;

// A hash is below it.
const HASHES: u64 = 4294967296;

// The mask of four bytes: all bits but that of each byte in which the two cases of a letter differ, so that texts which
// differ in case alone share a hash.
const CASELESS: u32 = 0xDFDFDFDF;

// What the two masked numbers of a step are multiplied by: odd, and so small that no sum is too large.
const FIRST: u64 = 668265263;

const SECOND: u64 = 1013904223;

// An entry's hash times this, and the entry before it in its chain, are one number.
const NEXT: u64 = 65536;

// So many chains there are, for few names and for more: a power of two, so that the bits of the last are all ones.
const FEW_CHAINS: usize = 128;

const CHAINS: usize = 1024;

// So many names have links: few, some, or as many as two sheets can have.
const FEW_NAMES: u32 = 64;

const SOME_NAMES: u32 = 256;

const FEW_LINKS: usize = FEW_NAMES as usize;

const SOME_LINKS: usize = SOME_NAMES as usize;

const LINKS: usize = 2 * (Sheet::MAX_NAMES as usize);

fn wide(x: u32) -> u64
    ensures { (result ≡ x) × (result < 4294967296) }
{
    x as u64
}

// A hash with two more numbers in it: each bit of them is spread over the low half, by which the chain goes.
fn mixed(hash: u64, low: u32, high: u32) -> u64
    requires { hash < 4294967296 }
    ensures { (result ≡ mix_of hash low high) × (result < 4294967296) }
{
    let sum = (hash + wide(low)) * FIRST + wide(high) * SECOND;
    (sum / HASHES + sum) % HASHES
}

// A text's length, with which its hash begins.
fn size(text: &[u8]) -> u64
    ensures { (result ≡ size_of text.now) × (result < 4294967296) }
{
    (text.len() as u64) % HASHES
}

// Four bytes of a text as one number, whatever the case of its letters.
fn word(text: &[u8], at: usize) -> u32
    requires { at + 4 ≤ length text.now }
    ensures { result ≡ u32_at (caseless_of text.now) at }
{
    endian::u32_at(text, at) & CASELESS
}

// A text of at most three bytes as one number, likewise: its first, middle and last byte.
fn few(text: &[u8]) -> u32
    requires { length text.now < 4 }
    ensures { result ≡ few_of (caseless_of text.now) }
{
    let n = text.len();
    if n == 0 {
        return 0;
    }
    let all = endian::wide(text[0])
        + 256 * endian::wide(text[n / 2])
        + 65536 * endian::wide(text[n - 1]);
    all & CASELESS
}

// The hash of all steps but the last.
fn steps(text: &[u8]) -> u64
    requires { 8 ≤ length text.now }
    ensures { (result ≡ steps_of (caseless_of text.now) ((length text.now - 1) / 8)) × (result < 4294967296) }
{
    let n = (text.len() - 1) / STEP;
    let mut hash = size(text);
    for k in 0..n {
        let at = STEP * k;
        hash = mixed(hash, word(text, at), word(text, at + HALF));
    }
    hash
}

// A text's hash: by steps of its bytes, where the last step ends with the text and may share bytes with the one before.
fn hash_of(text: &[u8]) -> u64
    ensures { (result ≡ hash_of text.now) × (result < 4294967296) }
{
    let n = text.len();
    if n < HALF {
        return mixed(size(text), few(text), 0);
    }
    if n < STEP {
        return mixed(size(text), word(text, 0), word(text, n - HALF));
    }
    mixed(steps(text), word(text, n - STEP), word(text, n - HALF))
}

// The chain in which texts of a hash are looked for, of the chains up to a top.
fn chain_of(hash: u64, top: u64) -> usize
    ensures { (result ≡ bit_and hash top) × (result ≤ top) }
{
    (hash & top) as usize
}

// The two sheets whose names are numbered, and their sizes.
#[derive(Clone, Copy)]
struct Sheets<'a> {
    statement: &'a [u8],
    schema: &'a [u8],
    sizes: Sizes,
}

// Name i of the two sheets.
fn name_of<'a>(sheets: &Sheets<'a>, i: u32) -> &'a [u8]
    requires sound { Sound sheets.now.schema.now sheets.now.sizes.schema }
    requires sound_2 { Sound sheets.now.statement.now sheets.now.sizes.statement }
    requires i_bound { i < all_names sheets.now.sizes }
    ensures { result.now ≡ text_at (texts_of sheets.now.schema.now sheets.now.statement.now) i }
{
    if i < sheets.sizes.schema.names {
        return frame::name(sheets.schema, sheets.sizes.schema, i);
    }
    frame::name(
        sheets.statement,
        sheets.sizes.statement,
        i - sheets.sizes.schema.names,
    )
}

// Whether a text is that of name i of the two sheets.
fn is_name(name: &[u8], sheets: &Sheets<'_>, i: u32) -> bool
    requires sound { Sound sheets.now.schema.now sheets.now.sizes.schema }
    requires sound_2 { Sound sheets.now.statement.now sheets.now.sizes.statement }
    requires i_bound { i < all_names sheets.now.sizes }
    ensures { result ≡ same_text name.now (text_at (texts_of sheets.now.schema.now sheets.now.statement.now) i) }
{
    text::same_text(name, name_of(sheets, i))
}

fn place(i: u32) -> usize
    ensures { result ≡ i }
{
    i as usize
}

// Whether the text of name i is that of name r, whose link is given: texts are compared only where the hashes are
// equal, and where two share a hash alone, both are marked.
fn is_entry(
    sheets: &Sheets<'_>,
    i: u32,
    name: &[u8],
    hash: u64,
    r: u32,
    link: u64,
    marks: &mut [bool],
) -> bool
    requires sound { Sound sheets.now.schema.now sheets.now.sizes.schema }
    requires sound_2 { Sound sheets.now.statement.now sheets.now.sizes.statement }
    requires i_bound { i < all_names sheets.now.sizes }
    requires r_bound { r < all_names sheets.now.sizes }
    requires hash_value { hash ≡ hash_of name.now }
    requires link_value { link / 65536 ≡ hash_of (text_at (texts_of sheets.now.schema.now sheets.now.statement.now) r) }
    requires sizes_in_bounds { all_names sheets.now.sizes ≤ length marks.old }
    ensures value { result ≡ same_text name.now (text_at (texts_of sheets.now.schema.now sheets.now.statement.now) r) }
    ensures marks_after { marks.new ≡ marks_with name.now (text_at (texts_of sheets.now.schema.now sheets.now.statement.now) r) i r marks.old }
{
    if link / NEXT != hash {
        return false;
    }
    if is_name(name, sheets, r) {
        return true;
    }
    marks[place(r)] = true;
    marks[place(i)] = true;
    false
}

// The entry before one in its chain.
fn next(link: u64) -> u32
    ensures { result ≡ link % 65536 }
{
    (link % NEXT) as u32
}

// A chain's last entry, out of the list of them and into it.
fn from_head(x: u16) -> u32
    ensures { (result ≡ x) × (result < 65536) }
{
    x as u32
}

fn to_head(x: u32) -> u16
    requires { x < 65536 }
    ensures { result ≡ x }
{
    x as u16
}

// The least number with the text of name i: one of the chain from its last entry on, or i. Names on the way that share
// its hash alone are marked, and so is i then.
fn least_same(
    sheets: &Sheets<'_>,
    i: u32,
    name: &[u8],
    hash: u64,
    top: u64,
    last: u32,
    links: &[u64],
    marks: &mut [bool],
) -> u32
    requires sound { Sound sheets.now.schema.now sheets.now.sizes.schema }
    requires sound_2 { Sound sheets.now.statement.now sheets.now.sizes.statement }
    requires i_bound { i < all_names sheets.now.sizes }
    requires name_value { name.now ≡ text_at (texts_of sheets.now.schema.now sheets.now.statement.now) i }
    requires hash_value { hash ≡ hash_of name.now }
    requires last_value { last ≡ last_in top (texts_of sheets.now.schema.now sheets.now.statement.now) (chain_of top name.now) i }
    requires sizes_in_bounds { all_names sheets.now.sizes ≤ length links.now }
    requires links { Links top (texts_of sheets.now.schema.now sheets.now.statement.now) i links.now }
    requires sizes_in_bounds_2 { all_names sheets.now.sizes ≤ length marks.old }
    requires hash_marks { HashMarks (texts_of sheets.now.schema.now sheets.now.statement.now) i marks.old }
    ensures value { result ≡ least_same (texts_of sheets.now.schema.now sheets.now.statement.now) i }
    ensures hash_marks_2 { HashMarks (texts_of sheets.now.schema.now sheets.now.statement.now) (i + 1) marks.new }
{
    let mut at = last;
    while at != 0 {
        let r = at - 1;
        let k = place(r);
        let link = links[k];
        if is_entry(sheets, i, name, hash, r, link, marks) {
            return r;
        }
        at = next(link);
    }
    i
}

// The number of name i, and where it is the first of its text, an entry of its chain.
// The lists are lent one by one: a struct that held them would owe a clause for each, that it is still the caller's.
fn enter(
    sheets: &Sheets<'_>,
    i: u32,
    ids: &mut [u32],
    heads: &mut [u16],
    links: &mut [u64],
    marks: &mut [bool],
    top: u64,
)
    requires sound { Sound sheets.now.schema.now sheets.now.sizes.schema }
    requires sound_2 { Sound sheets.now.statement.now sheets.now.sizes.statement }
    requires i_bound { i < all_names sheets.now.sizes }
    requires sizes_in_bounds { all_names sheets.now.sizes ≤ length ids.old }
    requires sizes_in_bounds_2 { all_names sheets.now.sizes ≤ length links.old }
    requires sizes_in_bounds_3 { all_names sheets.now.sizes ≤ length marks.old }
    requires heads { Heads top (texts_of sheets.now.schema.now sheets.now.statement.now) i heads.old }
    requires links { Links top (texts_of sheets.now.schema.now sheets.now.statement.now) i links.old }
    requires hash_marks { HashMarks (texts_of sheets.now.schema.now sheets.now.statement.now) i marks.old }
    ensures ids_after { ids.new ≡ set ids.old i (least_same (texts_of sheets.now.schema.now sheets.now.statement.now) i) }
    ensures heads_2 { Heads top (texts_of sheets.now.schema.now sheets.now.statement.now) (i + 1) heads.new }
    ensures links_2 { Links top (texts_of sheets.now.schema.now sheets.now.statement.now) (i + 1) links.new }
    ensures hash_marks_2 { HashMarks (texts_of sheets.now.schema.now sheets.now.statement.now) (i + 1) marks.new }
{
    let name = name_of(sheets, i);
    let hash = hash_of(name);
    let b = chain_of(hash, top);
    let last = from_head(heads[b]);
    let least = least_same(sheets, i, name, hash, top, last, links, marks);
    let at = place(i);
    ids[at] = least;
    if least != i {
        return;
    }
    links[at] = hash * NEXT + wide(last);
    heads[b] = to_head(i + 1);
}

// The numbers of all names, with no entry in any chain yet.
fn fill(
    sheets: &Sheets<'_>,
    ids: &mut [u32],
    heads: &mut [u16],
    links: &mut [u64],
    marks: &mut [bool],
    top: u64,
)
    requires sound { Sound sheets.now.schema.now sheets.now.sizes.schema }
    requires sound_2 { Sound sheets.now.statement.now sheets.now.sizes.statement }
    requires sizes_in_bounds { all_names sheets.now.sizes ≤ length ids.old }
    requires sizes_in_bounds_2 { all_names sheets.now.sizes ≤ length links.old }
    requires sizes_in_bounds_3 { all_names sheets.now.sizes ≤ length marks.old }
    requires heads { Heads top (texts_of sheets.now.schema.now sheets.now.statement.now) 0 heads.old }
    ensures numbered { Numbered (texts_of sheets.now.schema.now sheets.now.statement.now) (all_names sheets.now.sizes) ids.new }
    ensures ids_unchanged { drop (all_names sheets.now.sizes) ids.new ≡ drop (all_names sheets.now.sizes) ids.old }
    ensures marked { Marked (texts_of sheets.now.schema.now sheets.now.statement.now) (all_names sheets.now.sizes) marks.new }
{
    let n = sheets.sizes.schema.names + sheets.sizes.statement.names;
    for i in 0..n {
        enter(sheets, i, ids, heads, links, marks, top);
    }
}

// The same with so many chains and links, which have no entry yet.
fn fill_by<const HEADS: usize, const ENTRIES: usize>(
    sheets: &Sheets<'_>,
    ids: &mut [u32],
    marks: &mut [bool],
)
    requires sound { Sound sheets.now.schema.now sheets.now.sizes.schema }
    requires sound_2 { Sound sheets.now.statement.now sheets.now.sizes.statement }
    requires sizes_in_bounds { all_names sheets.now.sizes ≤ length ids.old }
    requires sizes_in_bounds_2 { all_names sheets.now.sizes ≤ ENTRIES }
    requires sizes_in_bounds_3 { all_names sheets.now.sizes ≤ length marks.old }
    requires some_chains { 0 < HEADS }
    requires few_chains { HEADS ≤ 65536 }
    requires few_links { ENTRIES ≤ 65536 }
    ensures numbered { Numbered (texts_of sheets.now.schema.now sheets.now.statement.now) (all_names sheets.now.sizes) ids.new }
    ensures ids_unchanged { drop (all_names sheets.now.sizes) ids.new ≡ drop (all_names sheets.now.sizes) ids.old }
    ensures marked { Marked (texts_of sheets.now.schema.now sheets.now.statement.now) (all_names sheets.now.sizes) marks.new }
{
    let mut heads = [0u16; HEADS];
    let mut links = [0u64; ENTRIES];
    let top = (HEADS - 1) as u64;
    fill(sheets, ids, &mut heads, &mut links, marks, top);
}

// The number of each name of two sheets, the first sheet's names before the second's: the least number with its text.
// What stands behind them is left as it is. A number is marked where another text shares the whole hash, as all do
// that differ in case alone; a mark that is lent stays. Few names get short lists, since all of a list is cleared.
// Names that are made to share one chain take a step for each pair, two million steps of a few instructions for 2,048
// names; only where they share the whole hash, as they do that differ in case alone, is it a comparison of texts, which
// together have at most 65,536 bytes.
pub fn number_names(s: &[u8], d: &[u8], sizes: Sizes, ids: &mut [u32], marks: &mut [bool])
    requires sound { Sound d.now sizes.schema }
    requires sound_2 { Sound s.now sizes.statement }
    requires sizes_in_bounds { all_names sizes ≤ length ids.old }
    requires sizes_in_bounds_2 { all_names sizes ≤ length marks.old }
    ensures numbered { Numbered (texts_of d.now s.now) (all_names sizes) ids.new }
    ensures ids_unchanged { drop (all_names sizes) ids.new ≡ drop (all_names sizes) ids.old }
    ensures marked { Marked (texts_of d.now s.now) (all_names sizes) marks.new }
{
    let n = sizes.schema.names + sizes.statement.names;
    let sheets = Sheets {
        statement: s,
        schema: d,
        sizes,
    };
    if n <= FEW_NAMES {
        return fill_by::<FEW_CHAINS, FEW_LINKS>(&sheets, ids, marks);
    }
    if n <= SOME_NAMES {
        return fill_by::<CHAINS, SOME_LINKS>(&sheets, ids, marks);
    }
    fill_by::<CHAINS, LINKS>(&sheets, ids, marks)
}
