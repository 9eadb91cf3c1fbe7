// The text of each form of message, put into a buffer from its start: fixed byte strings copied in turn between names
// and numbers. Over a buffer without room only its length is found.
#![tactic(auto)]

ghost use Rattle.std.specs.Prelude.{◌≡◌, ◌⊎◌, ◌++◌, ◌+◌, ◌/◌, ◌≤◌, ◌<◌, length, None};
ghost use Rattle.rules.specs.Kinds as Kind;
ghost use Rattle.lists.specs.Lists.{pick};
ghost use Rattle.frame.specs.Doc.{doc_of, kind_of, value_of};
ghost use Rattle.frame.specs.Inner.{Sound};
ghost use Rattle.rules.specs.declared.Place.TheVariants.{WholeStatement};
ghost use Rattle.grammar.specs.Machine.{grammar_fault};
ghost use Rattle.grammar.specs.Tree.{tree_of};
ghost use Rattle.grammar.specs.Inner.{NameAt};
ghost use Rattle.types.specs.Types.{literal};
ghost use Rattle.provider.specs.Schema.{property_of};
ghost use Rattle.breach.specs.Breach.{names_of, key_at, value_at, keys_of, owners, statement_in, schema_in};
ghost use Rattle.judge.specs.Judging.{Lent};
ghost use Rattle.in_order.specs.InOrder.{in_order};
ghost use Rattle.phrase.specs.Phrase.{joined, colons};
ghost use Rattle.phrase.specs.Inner.{Put};
ghost use Rattle.text.specs.Text.{bytes};
ghost use Rattle.sentence.specs.Sentence.{expected, got, undeclared_text, wrong_type_text, arity_text, labels_of, apart_text, unbacked_text};
ghost use Rattle.sentence.specs.Inner.{MapAt, LabelsAt, counted};

use frame::{Sheet, Sizes};
use provider::Callee;
use rules::kinds;

// A phrase, the name at token i, and a phrase.
pub fn put_quoted(s: &[u8], f: Sheet, before: &[u8], i: u32, after: &[u8], text: &mut [u8]) -> usize
    requires sound { Sound s.now f }
    requires name_at { NameAt (doc_of s.now) i }
    requires before_len_bound { length before.now ≤ 100 }
    requires after_len_bound { length after.now ≤ 100 }
    ensures { Put (before.now ++ (tree_of (doc_of s.now)).text i ++ after.now) 0 text.old result text.new × (result ≤ 100000) }
{
    let start = phrase::put(before, 0, text);
    let end = phrase::names::put_name(s, f, i, start, text);
    phrase::put(after, end, text)
}

// The Name of key k of the element i.
fn key_of(s: &[u8], f: Sheet, i: u32, k: u32) -> u32
    requires sound { Sound s.now f }
    requires s_value { grammar_fault WholeStatement (doc_of s.now) ≡ None }
    requires map_at { MapAt (doc_of s.now) i }
    requires k_bound { k < value_of (doc_of s.now) (i + 3 + value_of (doc_of s.now) i / 2) }
    ensures { NameAt (doc_of s.now) result × ((tree_of (doc_of s.now)).text result ≡ key_at (tree_of (doc_of s.now)) i k) × (result + 1 ≡ value_at (tree_of (doc_of s.now)) i k) }
{
    let map = i + 3 + frame::value(s, f, i) / 2;
    phrase::keys::key_at(s, f, map, k)
}

// property `K` is not declared on label(s) :A, :B
pub fn undeclared_key(s: &[u8], f: Sheet, i: u32, k: u32, text: &mut [u8]) -> usize
    requires sound { Sound s.now f }
    requires s_value { grammar_fault WholeStatement (doc_of s.now) ≡ None }
    requires map_at { MapAt (doc_of s.now) i }
    requires k_bound { k < value_of (doc_of s.now) (i + 3 + value_of (doc_of s.now) i / 2) }
    ensures { Put (undeclared_text (tree_of (doc_of s.now)) i k) 0 text.old result text.new × (result ≤ 1000000000) }
{
    let key = key_of(s, f, i, k);
    let end = put_quoted(s, f, b"property `", key, b"` is not declared on ", text);
    phrase::names::put_on_names(s, f, i, end, text)
}

// The declared type of a key of the element i, whose Name is token `key`.
fn put_expected(
    s: &[u8],
    d: &[u8],
    sizes: Sizes,
    register: &[u32],
    i: u32,
    key: u32,
    at: usize,
    text: &mut [u8],
) -> usize
    requires lent { Lent s.now d.now sizes register.now }
    requires map_at { MapAt (doc_of s.now) i }
    requires name_at { NameAt (doc_of s.now) key }
    requires at_bound { at < 900000000000 }
    ensures { Put (expected (property_of (owners (schema_in d.now) ((statement_in s.now).kind i)) (names_of (statement_in s.now) i) ((statement_in s.now).text key))) at text.old result text.new × (result ≤ at + 12) }
{
    let Some(y) = judge::keys::property_of(s, d, sizes, register, i, key) else {
        return at;
    };
    phrase::type_names::put_property_type_name(y, at, text)
}

// The literal type of the expression at token i.
fn put_got(s: &[u8], f: Sheet, i: u32, at: usize, text: &mut [u8]) -> usize
    requires sound { Sound s.now f }
    requires at_bound { at < 900000000000 }
    ensures { Put (got (literal (tree_of (doc_of s.now)) i)) at text.old result text.new × (result ≤ at + 12) }
{
    let Some(y) = types::infer_literal_type(s, f, i) else {
        return at;
    };
    phrase::type_names::put_type_name(y, at, text)
}

// property `K` expects type `T` but got `U`
pub fn wrong_type(
    s: &[u8],
    d: &[u8],
    sizes: Sizes,
    register: &[u32],
    i: u32,
    k: u32,
    text: &mut [u8],
) -> usize
    requires lent { Lent s.now d.now sizes register.now }
    requires map_at { MapAt (doc_of s.now) i }
    requires k_bound { k < value_of (doc_of s.now) (i + 3 + value_of (doc_of s.now) i / 2) }
    ensures { Put (wrong_type_text (statement_in s.now) (schema_in d.now) i k) 0 text.old result text.new × (result ≤ 1000000000) }
{
    let key = key_of(s, sizes.statement, i, k);
    let named = put_quoted(
        s,
        sizes.statement,
        b"property `",
        key,
        b"` expects type `",
        text,
    );
    let declared = put_expected(s, d, sizes, register, i, key, named, text);
    let but = phrase::put(b"` but got `", declared, text);
    let end = put_got(s, sizes.statement, key + 1, but, text);
    phrase::put(b"`", end, text)
}

// Whether more arguments may follow.
fn put_bound(variadic: bool, at: usize, text: &mut [u8]) -> usize
    requires { at < 900000000000 }
    ensures { Put (pick variadic (bytes "at least ") (bytes "exactly ")) at text.old result text.new × (result ≤ at + 9) }
{
    if variadic {
        return phrase::put(b"at least ", at, text);
    }
    phrase::put(b"exactly ", at, text)
}

// exactly 2 argument(s) but got 3
fn put_count(q: Option<Callee>, n: u32, at: usize, text: &mut [u8]) -> usize
    requires { at < 800000000000 }
    ensures { Put (counted q n) at text.old result text.new × (result ≤ at + 100) }
{
    let Some(callee) = q else {
        return at;
    };
    let bound = put_bound(callee.variadic, at, text);
    let least = phrase::put_decimal(callee.parameters, bound, text);
    let but = phrase::put(b" argument(s) but got ", least, text);
    phrase::put_decimal(n, but, text)
}

// function `F` expects exactly 2 argument(s) but got 3: a phrase, the name at token i, and the two counts, of what is
// called and of the n that were given.
fn put_expects(
    s: &[u8],
    f: Sheet,
    before: &[u8],
    i: u32,
    q: Option<Callee>,
    n: u32,
    text: &mut [u8],
) -> usize
    requires sound { Sound s.now f }
    requires name_at { NameAt (doc_of s.now) i }
    requires before_len_bound { length before.now ≤ 100 }
    ensures { Put (before.now ++ (tree_of (doc_of s.now)).text i ++ bytes "` expects " ++ counted q n) 0 text.old result text.new × (result ≤ 1000000000) }
{
    let end = put_quoted(s, f, before, i, b"` expects ", text);
    put_count(q, n, end, text)
}

// The same for the Call i, of an expression or a clause: of a function, or of a procedure.
pub fn wrong_count(
    s: &[u8],
    d: &[u8],
    sizes: Sizes,
    register: &[u32],
    i: u32,
    text: &mut [u8],
) -> usize
    requires lent { Lent s.now d.now sizes register.now }
    requires i_lt_tokens { i < sizes.statement.tokens }
    requires fact { (kind_of (doc_of s.now) i ≡ Kind.FunctionCall) ⊎ (kind_of (doc_of s.now) i ≡ Kind.ProcedureCall) }
    ensures { Put (arity_text (statement_in s.now) (schema_in d.now) i) 0 text.old result text.new × (result ≤ 1000000000) }
{
    let f = sizes.statement;
    let n = frame::value(s, f, i);
    if frame::kind(s, f, i) == kinds::FUNCTION_CALL {
        let q = provider::function(s, d, sizes, register, i + 1);
        return put_expects(s, f, b"function `", i + 1, q, n, text);
    }
    let q = provider::procedure(s, d, sizes, register, i + 3);
    put_expects(s, f, b"procedure `", i + 3, q, n, text)
}

// The labels of a Node, or of a Set's Labels, with nothing between them.
fn put_labels(s: &[u8], f: Sheet, i: u32, at: usize, text: &mut [u8]) -> usize
    requires sound { Sound s.now f }
    requires labels_at { LabelsAt (doc_of s.now) i }
    requires at_bound { at < 400000000000 }
    ensures { Put (colons (bytes "") (labels_of (tree_of (doc_of s.now)) i)) at text.old result text.new × (result ≤ at + 300000000) }
{
    let value = frame::value(s, f, i);
    if frame::kind(s, f, i) == kinds::NODE {
        return phrase::names::put_colons(s, f, i + 3, value / 2, b"", at, text);
    }
    phrase::names::put_colons(s, f, i + 1, value, b"", at, text)
}

// labels :A:B cannot be combined on a single node
pub fn apart_labels(s: &[u8], f: Sheet, i: u32, text: &mut [u8]) -> usize
    requires sound { Sound s.now f }
    requires labels_at { LabelsAt (doc_of s.now) i }
    ensures { Put (apart_text (tree_of (doc_of s.now)) i) 0 text.old result text.new × (result ≤ 1000000000) }
{
    let start = phrase::put(b"labels ", 0, text);
    let end = put_labels(s, f, i, start, text);
    phrase::put(b" cannot be combined on a single node", end, text)
}

// The keys of the element i, distinct and in order.
fn put_key_set(s: &[u8], f: Sheet, i: u32, at: usize, text: &mut [u8]) -> usize
    requires sound { Sound s.now f }
    requires s_value { grammar_fault WholeStatement (doc_of s.now) ≡ None }
    requires map_at { MapAt (doc_of s.now) i }
    requires at_bound { at < 400000000000 }
    ensures { Put (joined (bytes ", ") (in_order (keys_of (tree_of (doc_of s.now)) i))) at text.old result text.new × (result ≤ at + 300000000) }
{
    let map = i + 3 + frame::value(s, f, i) / 2;
    let mut keys = [0; judge::keys::MAX_KEYS];
    let many = judge::keys::collect_keys(s, f, map, &mut keys);
    let from: usize = 0;
    phrase::keys::put_in_order(s, f, &keys[from..(many as usize)], at, text)
}

// MERGE key {a, b} on label(s) :A, :B is not backed by a declared uniqueness constraint
pub fn unbacked_key(s: &[u8], f: Sheet, i: u32, text: &mut [u8]) -> usize
    requires sound { Sound s.now f }
    requires s_value { grammar_fault WholeStatement (doc_of s.now) ≡ None }
    requires map_at { MapAt (doc_of s.now) i }
    ensures { Put (unbacked_text (tree_of (doc_of s.now)) i) 0 text.old result text.new × (result ≤ 1000000000) }
{
    let start = phrase::put(b"MERGE key {", 0, text);
    let keyed = put_key_set(s, f, i, start, text);
    let on = phrase::put(b"} on ", keyed, text);
    let end = phrase::names::put_on_names(s, f, i, on, text);
    phrase::put(
        b" is not backed by a declared uniqueness constraint",
        end,
        text,
    )
}
