// The keys of an element's Map: each is judged by its declaration.
ghost use Rattle.std.specs.Prelude.{◌≡◌, true, [], ◌∷◌, ◌+◌, ◌*◌, ◌<◌, ◌≤◌, length, set, None};
ghost use Rattle.rules.specs.Kinds as Kind;
ghost use Rattle.lists.specs.Lists.{pick};
ghost use Rattle.frame.specs.Limits.{max_names, max_tokens};
ghost use Rattle.frame.specs.Doc.{doc_of, kind_of};
ghost use Rattle.frame.specs.Inner.{Sound};
ghost use Rattle.rules.specs.declared.Place.TheVariants.{WholeStatement};
ghost use Rattle.grammar.specs.Machine.{grammar_fault};
ghost use Rattle.grammar.specs.Tree.{child};
ghost use Rattle.grammar.specs.Inner.{NameAt};
ghost use Rattle.schema.specs.Inner.{Owning};
ghost use Rattle.numbers.specs.Least.{all_names, texts_of};
ghost use Rattle.register.specs.Register.{number_of};
ghost use Rattle.marks.specs.Marks.{marked, is_marked};
ghost use Rattle.provider.specs.Schema.{property_of, tuples_of};
ghost use Rattle.provider.specs.Inner.{map_keys, Keyed, property_found, backing_of, backing_for};
ghost use Rattle.provider.specs.declared.Backing.TheVariants.{NoTuple};
ghost use Rattle.breach.specs.Breach.{item_at, is_element, holder, names_of, props_of, keys_of, owners, statement_in, schema_in};
ghost use Rattle.breach.specs.Listing.{key_item, late};
ghost use Rattle.properties.specs.Entering.{PropertiesOf, Element, Clear};
ghost use Rattle.judge.specs.Merged.{map_of, MapOf, joined_with, unbacked_by, Collected};
ghost use Rattle.judge.specs.Window.{half_count, most_count, WroteItems};
ghost use Rattle.judge.specs.Judging.{Lent, Judged, key_items, keyed_items};

use crate::{Tally, codes};
use frame::{Sheet, Sizes};
use provider::Backing;
use rules::kinds;
use types::Ty;

// A Map's pair takes two tokens at least.
pub const MAX_KEYS: usize = (Sheet::MAX_TOKENS as usize) / 2;

// Room for few names, and for those of any two sheets.
const FEW_NAMES: usize = register::FEW_NAMES as usize;

const ALL_NAMES: usize = register::ALL_NAMES;

// The declaration of the key at token `key`, for the element i: the first one in the first of its names that has one.
// It serves the crates above.
pub fn property_of(
    s: &[u8],
    d: &[u8],
    sizes: Sizes,
    register: &[u32],
    i: u32,
    key: u32,
) -> Option<Ty>
    requires lent { Lent s.now d.now sizes register.now }
    requires i_lt_tokens { i < sizes.statement.tokens }
    requires i_value { is_element (kind_of (doc_of s.now) i) ≡ true }
    requires name_at { NameAt (doc_of s.now) key }
    ensures { result ≡ property_found (property_of (owners (schema_in d.now) ((statement_in s.now).kind i)) (names_of (statement_in s.now) i) ((statement_in s.now).text key)) }
{
    let mut entered = [0; register::ALL_NAMES];
    properties::enter_names(s, d, sizes, register, i, &mut entered);
    properties::property_found(s, d, sizes, register, i, key, &entered)
}

// A key of an element's Map: the element, the key's number among the keys, and the token that is its Name. Its value
// is the token after.
#[derive(Clone, Copy)]
pub struct Key {
    pub element: u32,
    pub ordinal: u32,
    pub at: u32,
}

// An item of a key, with the element's span.
fn put_key(s: &[u8], f: Sheet, key: Key, code: u32, tally: Tally, list: &mut [u32]) -> Tally
    requires sound { Sound s.now f }
    requires element_value { kind_of (doc_of s.now) (key.element + 1) ≡ Kind.Number }
    requires element_value_2 { kind_of (doc_of s.now) (key.element + 2) ≡ Kind.Number }
    requires count_lt_most_count { tally.count < most_count }
    ensures { WroteItems (item_at (statement_in s.now) key.element code 2 key.ordinal ∷ []) tally list.old result list.new }
{
    crate::items::put_at(
        s,
        f,
        key.element,
        code,
        codes::OF_KEYS,
        key.ordinal,
        tally,
        list,
    )
}

// The item of a key; the properties of the element's names are entered.
fn key_item(
    s: &[u8],
    d: &[u8],
    sizes: Sizes,
    register: &[u32],
    key: Key,
    tally: Tally,
    entered: &[u32],
    list: &mut [u32],
) -> Tally
    requires lent { Lent s.now d.now sizes register.now }
    requires element_lt_tokens { key.element < sizes.statement.tokens }
    requires element_value { is_element (kind_of (doc_of s.now) key.element) ≡ true }
    requires name_at { NameAt (doc_of s.now) key.at }
    requires at_value { key.at ≡ child (statement_in s.now) (props_of (statement_in s.now) key.element) (2 * key.ordinal) }
    requires at_value_2 { key.at + 1 ≡ child (statement_in s.now) (props_of (statement_in s.now) key.element) (2 * key.ordinal + 1) }
    requires count_lt_most_count { tally.count < most_count }
    requires properties_of { PropertiesOf s.now d.now sizes key.element entered.now }
    ensures { WroteItems (key_item (statement_in s.now) (schema_in d.now) key.element key.ordinal) tally list.old result list.new }
{
    let Some(declared) = properties::property_found(
        s,
        d,
        sizes,
        register,
        key.element,
        key.at,
        entered,
    ) else {
        return put_key(s, sizes.statement, key, codes::UNKNOWN_KEY, tally, list);
    };
    let Some(inferred) = types::infer_literal_type(s, sizes.statement, key.at + 1) else {
        return tally;
    };
    if types::types_compatible(inferred, declared) {
        return tally;
    }
    put_key(s, sizes.statement, key, codes::WRONG_TYPE, tally, list)
}

// Where the Map of the element i stands, if it has a name and its properties are a Map.
fn map_of(s: &[u8], f: Sheet, i: u32) -> Option<u32>
    requires sound { Sound s.now f }
    requires s_value { grammar_fault WholeStatement (doc_of s.now) ≡ None }
    requires i_lt_tokens { i < f.tokens }
    requires i_value { is_element (kind_of (doc_of s.now) i) ≡ true }
    ensures { result ≡ map_of (statement_in s.now) i }
{
    let value = frame::value(s, f, i);
    if value < 2 {
        return None;
    }
    if value % 2 == 0 {
        return None;
    }
    let map = i + 3 + value / 2;
    if frame::kind(s, f, map) != kinds::MAP {
        return None;
    }
    Some(map)
}

// The items of the keys of the element i, whose Map stands at `map`.
fn map_items(
    s: &[u8],
    d: &[u8],
    sizes: Sizes,
    register: &[u32],
    i: u32,
    map: u32,
    tally: Tally,
    entered: &[u32],
    list: &mut [u32],
) -> Tally
    requires lent { Lent s.now d.now sizes register.now }
    requires i_lt_tokens { i < sizes.statement.tokens }
    requires i_value { is_element (kind_of (doc_of s.now) i) ≡ true }
    requires map_of { MapOf (doc_of s.now) i map }
    requires count_lt_half_count { tally.count < half_count }
    requires properties_of { PropertiesOf s.now d.now sizes i entered.now }
    ensures { Judged key_items s.now d.now i tally list.old result list.new }
{
    let pairs = frame::value(s, sizes.statement, map);
    let mut at = map + 1;
    let mut tallied = tally;
    for k in 0..pairs {
        let key = Key {
            element: i,
            ordinal: k,
            at,
        };
        tallied = key_item(s, d, sizes, register, key, tallied, entered, list);
        at = grammar::skip(s, sizes.statement, at + 1);
    }
    tallied
}

// The same with room for the properties of N names.
fn entered_items<const N: usize>(
    s: &[u8],
    d: &[u8],
    sizes: Sizes,
    register: &[u32],
    i: u32,
    map: u32,
    tally: Tally,
    list: &mut [u32],
) -> Tally
    requires lent { Lent s.now d.now sizes register.now }
    requires i_lt_tokens { i < sizes.statement.tokens }
    requires i_value { is_element (kind_of (doc_of s.now) i) ≡ true }
    requires map_of { MapOf (doc_of s.now) i map }
    requires count_lt_half_count { tally.count < half_count }
    requires names_in_bounds { all_names sizes ≤ N }
    requires few_names { N ≤ 2 * max_names }
    ensures { Judged key_items s.now d.now i tally list.old result list.new }
{
    let mut entered = [0; N];
    properties::enter_names(s, d, sizes, register, i, &mut entered);
    map_items(s, d, sizes, register, i, map, tally, &entered, list)
}

// Whether a short list has room for the names of both sheets.
fn has_few_names(sizes: Sizes) -> bool
    requires { all_names sizes ≤ 2 * max_names }
    ensures { result ≡ true → all_names sizes ≤ FEW_NAMES }
{
    sizes.schema.names + sizes.statement.names <= register::FEW_NAMES
}

// The same with a short list where there are few names, since all of it is cleared.
fn named_items(
    s: &[u8],
    d: &[u8],
    sizes: Sizes,
    register: &[u32],
    i: u32,
    map: u32,
    tally: Tally,
    list: &mut [u32],
) -> Tally
    requires lent { Lent s.now d.now sizes register.now }
    requires i_lt_tokens { i < sizes.statement.tokens }
    requires i_value { is_element (kind_of (doc_of s.now) i) ≡ true }
    requires map_of { MapOf (doc_of s.now) i map }
    requires count_lt_half_count { tally.count < half_count }
    ensures { Judged key_items s.now d.now i tally list.old result list.new }
{
    if has_few_names(sizes) {
        return entered_items::<FEW_NAMES>(s, d, sizes, register, i, map, tally, list);
    }
    entered_items::<ALL_NAMES>(s, d, sizes, register, i, map, tally, list)
}

// The items of the keys of an element's Map, where it has a name and a Map.
pub fn key_items(
    s: &[u8],
    d: &[u8],
    sizes: Sizes,
    register: &[u32],
    i: u32,
    tally: Tally,
    list: &mut [u32],
) -> Tally
    requires lent { Lent s.now d.now sizes register.now }
    requires i_lt_tokens { i < sizes.statement.tokens }
    requires i_value { is_element (kind_of (doc_of s.now) i) ≡ true }
    requires count_lt_half_count { tally.count < half_count }
    ensures { Judged keyed_items s.now d.now i tally list.old result list.new }
{
    let Some(map) = map_of(s, sizes.statement, i) else {
        return tally;
    };
    named_items(s, d, sizes, register, i, map, tally, list)
}

// What the tuples of one name and those of others say together.
fn joined(a: Backing, b: Backing) -> Backing
    ensures { result ≡ joined_with a b }
{
    match (a, b) {
        (Backing::NoTuple, _) => b,
        (Backing::Backed, _) | (_, Backing::Backed) => Backing::Backed,
        (Backing::Unbacked, _) => Backing::Unbacked,
    }
}

// The tuples of the statement's Name at token `at`, unless that name was met before, which `done` marks.
fn name_backing(
    s: &[u8],
    d: &[u8],
    sizes: Sizes,
    register: &[u32],
    kind: u8,
    at: u32,
    map: u32,
    marks: &[u8],
    done: &mut [u8],
) -> Backing
    requires keyed { Keyed s.now d.now sizes register.now map marks.now }
    requires owning { Owning kind }
    requires name_at { NameAt (doc_of s.now) at }
    requires sizes_in_bounds { all_names sizes ≤ length done.old }
    ensures value { result ≡ pick (is_marked done.old (number_of s.now d.now at)) NoTuple (backing_for s.now d.now kind at map) }
    ensures done_after { done.new ≡ set done.old (number_of s.now d.now at) 1 }
{
    if marks::mark(s, d, sizes, register, at, done) {
        return Backing::NoTuple;
    }
    provider::backing_of(s, d, sizes, register, kind, at, map, marks)
}

// The tuples of all names of the element i, against the keys of the Map at `map`, which are marked.
fn names_backing(
    s: &[u8],
    d: &[u8],
    sizes: Sizes,
    register: &[u32],
    i: u32,
    map: u32,
    marks: &[u8],
    done: &mut [u8],
) -> Backing
    requires element { Element s.now d.now sizes register.now i }
    requires keyed { Keyed s.now d.now sizes register.now map marks.now }
    requires clear { Clear (all_names sizes) done.old }
    ensures { result ≡ backing_of (tuples_of (owners (schema_in d.now) ((statement_in s.now).kind i)) (names_of (statement_in s.now) i)) (map_keys (statement_in s.now) map) }
{
    let kind = properties::owner_kind(frame::kind(s, sizes.statement, i));
    let many = frame::value(s, sizes.statement, i) / 2;
    let mut total = Backing::NoTuple;
    for k in 0..many {
        let b = name_backing(s, d, sizes, register, kind, i + 3 + k, map, marks, done);
        total = joined(total, b);
    }
    total
}

// The numbers of the names that are the keys of the Map at `map`, in order: how many there are. It serves the crates
// above.
pub fn collect_keys(s: &[u8], f: Sheet, map: u32, keys: &mut [u32]) -> u32
    requires sound { Sound s.now f }
    requires s_value { grammar_fault WholeStatement (doc_of s.now) ≡ None }
    requires map_lt_tokens { map < f.tokens }
    requires map_value { kind_of (doc_of s.now) map ≡ Kind.Map }
    requires max_tokens_bound { max_tokens ≤ 2 * length keys.old }
    ensures { Collected (doc_of s.now) map result keys.new }
{
    let pairs = frame::value(s, f, map);
    let mut at = map + 1;
    for k in 0..pairs {
        keys[k as usize] = frame::value(s, f, at);
        at = grammar::skip(s, f, at + 1);
    }
    pairs
}

// Marks the keys of the Map at `map`.
fn mark_keys(s: &[u8], d: &[u8], sizes: Sizes, register: &[u32], map: u32, marks: &mut [u8])
    requires lent { Lent s.now d.now sizes register.now }
    requires map_lt_tokens { map < sizes.statement.tokens }
    requires map_value { kind_of (doc_of s.now) map ≡ Kind.Map }
    requires sizes_in_bounds { all_names sizes ≤ length marks.old }
    ensures { marks.new ≡ marked (texts_of d.now s.now) (map_keys (statement_in s.now) map) marks.old }
{
    let pairs = frame::value(s, sizes.statement, map);
    let mut at = map + 1;
    for k in 0..pairs {
        marks::mark(s, d, sizes, register, at, marks);
        at = grammar::skip(s, sizes.statement, at + 1);
    }
}

// Whether no tuple of the names of the element i, whose Map stands at `map`, lies among the Map's keys, though there
// are tuples; with room for the marks of N names, twice.
fn unbacked_in<const N: usize>(
    s: &[u8],
    d: &[u8],
    sizes: Sizes,
    register: &[u32],
    i: u32,
    map: u32,
) -> bool
    requires lent { Lent s.now d.now sizes register.now }
    requires i_lt_tokens { i < sizes.statement.tokens }
    requires i_value { is_element (kind_of (doc_of s.now) i) ≡ true }
    requires map_of { MapOf (doc_of s.now) i map }
    requires names_in_bounds { all_names sizes ≤ N }
    requires few_names { N ≤ 2 * max_names }
    ensures { result ≡ unbacked_by (backing_of (tuples_of (owners (schema_in d.now) ((statement_in s.now).kind i)) (names_of (statement_in s.now) i)) (keys_of (statement_in s.now) i)) }
{
    let mut marks = [0; N];
    mark_keys(s, d, sizes, register, map, &mut marks);
    let mut done = [0; N];
    matches!(
        names_backing(s, d, sizes, register, i, map, &marks, &mut done),
        Backing::Unbacked
    )
}

// The same with short lists where there are few names, since all of them are cleared.
fn is_unbacked(s: &[u8], d: &[u8], sizes: Sizes, register: &[u32], i: u32, map: u32) -> bool
    requires lent { Lent s.now d.now sizes register.now }
    requires i_lt_tokens { i < sizes.statement.tokens }
    requires i_value { is_element (kind_of (doc_of s.now) i) ≡ true }
    requires map_of { MapOf (doc_of s.now) i map }
    ensures { result ≡ unbacked_by (backing_of (tuples_of (owners (schema_in d.now) ((statement_in s.now).kind i)) (names_of (statement_in s.now) i)) (keys_of (statement_in s.now) i)) }
{
    if has_few_names(sizes) {
        return unbacked_in::<FEW_NAMES>(s, d, sizes, register, i, map);
    }
    unbacked_in::<ALL_NAMES>(s, d, sizes, register, i, map)
}

// What is wrong with the keys by which the element i is merged, by the kind of the token that holds its pattern.
pub fn merge_item(
    s: &[u8],
    d: &[u8],
    sizes: Sizes,
    register: &[u32],
    i: u32,
    held: u8,
    tally: Tally,
    list: &mut [u32],
) -> Tally
    requires lent { Lent s.now d.now sizes register.now }
    requires i_lt_tokens { i < sizes.statement.tokens }
    requires i_value { is_element (kind_of (doc_of s.now) i) ≡ true }
    requires held_value { held ≡ holder (statement_in s.now) i }
    requires count_lt_half_count { tally.count < half_count }
    ensures { Judged late s.now d.now i tally list.old result list.new }
{
    if held != kinds::MERGE {
        return tally;
    }
    let Some(map) = map_of(s, sizes.statement, i) else {
        return tally;
    };
    if is_unbacked(s, d, sizes, register, i, map) {
        return crate::items::put_at(
            s,
            sizes.statement,
            i,
            codes::UNBACKED_KEYS,
            codes::OF_MERGES,
            0,
            tally,
            list,
        );
    }
    tally
}
