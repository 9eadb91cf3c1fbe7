// What the declarations of a schema sheet answer: lookups by kind and name.
#![tactic(auto)]

ghost use Rattle.std.specs.Prelude.{◌≡◌, ℕ, ◌+◌, ◌-◌, ◌*◌, ◌≤◌, ◌<◌, eqb, leb, length, get_or};
ghost use Rattle.rules.specs.Kinds as Kind;
ghost use Rattle.lists.specs.Lists.{both, any_of, all_of};
ghost use Rattle.text.specs.Text.{is_text};
ghost use Rattle.frame.specs.Limits.{max_names};
ghost use Rattle.frame.specs.Doc.{doc_of, kind_of};
ghost use Rattle.frame.specs.Inner.{Sound};
ghost use Rattle.grammar.specs.Tree.{tree_of, texts};
ghost use Rattle.grammar.specs.Inner.{NameAt};
ghost use Rattle.provider.specs.Schema.{is_declared, tuple_at, function_of, procedure_of, apart_among, schema_of};
ghost use Rattle.provider.specs.Scanned.{decl_end};
ghost use Rattle.schema.specs.Scanned.{tokens_of};
ghost use Rattle.schema.specs.Inner.{Owning};
ghost use Rattle.numbers.specs.Least as Least;
ghost use Rattle.register.specs.Register.{Registered};
ghost use Rattle.numbers.specs.Least.{all_names};
ghost use Rattle.provider.specs.Inner.{TypeAt, map_keys, Keyed, Labelled, owners_of, callee, tuples_over, backing_of, apart_marked, backing_for};
ghost use Rattle.types.specs.Types.{ty};

use frame::{Sheet, Sizes};
use rules::kinds;
use types::Ty;

// How many parameters a function or a procedure takes, and whether more may follow.
#[derive(Clone, Copy, PartialEq, Eq, Debug)]
pub struct Callee {
    pub parameters: u32,
    pub variadic: bool,
}

// Whether a label (kind 101) or a relationship type (102) is declared whose name is the statement's Name at token i.
pub fn has_declared(s: &[u8], d: &[u8], sizes: Sizes, register: &[u32], kind: u8, i: u32) -> bool
    requires registered { Registered s.now d.now sizes register.now }
    requires owning { Owning kind }
    requires name_at { NameAt (doc_of s.now) i }
    ensures { result ≡ is_declared (owners_of (tree_of (doc_of d.now)) kind) ((tree_of (doc_of s.now)).text i) }
{
    register::declared(s, d, sizes, register, kind, i).is_some()
}

// Where what belongs to declaration i ends: at the next declaration, or with the tokens. It serves the crates above
// as well.
pub fn decl_end(s: &[u8], f: Sheet, i: u32) -> u32
    requires sound { Sound s.now f }
    requires i_lt_tokens { i < f.tokens }
    ensures { result ≡ decl_end (tree_of (doc_of s.now)) i }
{
    for j in i + 1..f.tokens {
        if is_decl(frame::kind(s, f, j)) {
            return j;
        }
    }
    f.tokens
}

fn is_decl(kind: u8) -> bool
    ensures { result ≡ both (leb Kind.Label kind) (leb kind Kind.Apart) }
{
    kinds::LABEL <= kind && kind <= kinds::APART
}

// The type that token i states. It serves the crates above as well.
pub fn type_at(s: &[u8], f: Sheet, i: u32) -> Ty
    requires sound { Sound s.now f }
    requires type_at { TypeAt (doc_of s.now) i }
    ensures { result ≡ ty ((tree_of (doc_of s.now)).kind i - Kind.FirstType) ((tree_of (doc_of s.now)).value i) }
{
    Ty {
        base: frame::kind(s, f, i) - kinds::FIRST_TYPE,
        depth: frame::value(s, f, i),
    }
}

// The signature of the function whose name is the statement's Name at token i, with A to Z as a to z: the first of that
// name counts.
pub fn function(s: &[u8], d: &[u8], sizes: Sizes, register: &[u32], i: u32) -> Option<Callee>
    requires registered { Registered s.now d.now sizes register.now }
    requires name_at { NameAt (doc_of s.now) i }
    ensures { result ≡ callee (function_of (schema_of (tree_of (doc_of d.now))) ((tree_of (doc_of s.now)).text i)) }
{
    let j = register::function(s, d, sizes, register, i)?;
    let value = frame::value(d, sizes.schema, j);
    Some(Callee {
        parameters: value / 2,
        variadic: value % 2 == 1,
    })
}

// The signature of the procedure of that name: the first of that name counts.
pub fn procedure(s: &[u8], d: &[u8], sizes: Sizes, register: &[u32], i: u32) -> Option<Callee>
    requires registered { Registered s.now d.now sizes register.now }
    requires name_at { NameAt (doc_of s.now) i }
    ensures { result ≡ callee (procedure_of (schema_of (tree_of (doc_of d.now))) ((tree_of (doc_of s.now)).text i)) }
{
    let j = register::declared(s, d, sizes, register, kinds::PROCEDURE, i)?;
    Some(Callee {
        parameters: frame::value(d, sizes.schema, j),
        variadic: false,
    })
}

// Whether the keys of a map hold a tuple of the declaration wholly, where it has tuples.
#[derive(Clone, Copy, PartialEq, Eq, Debug)]
pub enum Backing {
    NoTuple,
    Unbacked,
    Backed,
}

// Whether each name of tuple j is a key of the statement's Map at token `map`, whose keys are marked.
fn tuple_among(
    s: &[u8],
    d: &[u8],
    sizes: Sizes,
    register: &[u32],
    j: u32,
    map: u32,
    marks: &[u8],
) -> bool
    requires keyed { Keyed s.now d.now sizes register.now map marks.now }
    requires j_lt_tokens { j < sizes.schema.tokens }
    requires j_value { kind_of (doc_of d.now) j ≡ Kind.Tuple }
    ensures { result ≡ all_of (is_text (map_keys (tree_of (doc_of s.now)) map)) (tuple_at (tree_of (doc_of d.now)) j) }
{
    let count = frame::value(d, sizes.schema, j);
    for i in 0..count {
        if !marks::is_marked(s, d, sizes, register, j + 1 + i, marks) {
            return false;
        }
    }
    true
}

// Whether token j is a tuple whose names are all among these keys.
fn is_backed(
    s: &[u8],
    d: &[u8],
    sizes: Sizes,
    register: &[u32],
    j: u32,
    map: u32,
    marks: &[u8],
) -> bool
    requires keyed { Keyed s.now d.now sizes register.now map marks.now }
    requires j_lt_tokens { j < sizes.schema.tokens }
    ensures { result ≡ both (eqb ((tree_of (doc_of d.now)).kind j) Kind.Tuple) (all_of (is_text (map_keys (tree_of (doc_of s.now)) map)) (tuple_at (tree_of (doc_of d.now)) j)) }
{
    frame::kind(d, sizes.schema, j) == kinds::TUPLE
        && tuple_among(s, d, sizes, register, j, map, marks)
}

// The same for the tuples from one token up to another.
fn items_backing(
    s: &[u8],
    d: &[u8],
    sizes: Sizes,
    register: &[u32],
    from: u32,
    to: u32,
    map: u32,
    marks: &[u8],
) -> Backing
    requires keyed { Keyed s.now d.now sizes register.now map marks.now }
    requires to_le_tokens { to ≤ sizes.schema.tokens }
    ensures { result ≡ backing_of (tuples_over (tree_of (doc_of d.now)) from to) (map_keys (tree_of (doc_of s.now)) map) }
{
    let mut seen = false;
    for j in from..to {
        if is_backed(s, d, sizes, register, j, map, marks) {
            return Backing::Backed;
        }
        seen |= frame::kind(d, sizes.schema, j) == kinds::TUPLE;
    }
    if seen {
        return Backing::Unbacked;
    }
    Backing::NoTuple
}

// The tuples of the label (kind 101) or relationship type (102) that the statement's Name at token `name` names, against
// the keys of the statement's Map at token `map`, which are marked.
pub fn backing_of(
    s: &[u8],
    d: &[u8],
    sizes: Sizes,
    register: &[u32],
    kind: u8,
    name: u32,
    map: u32,
    marks: &[u8],
) -> Backing
    requires keyed { Keyed s.now d.now sizes register.now map marks.now }
    requires owning { Owning kind }
    requires name_at { NameAt (doc_of s.now) name }
    ensures { result ≡ backing_for s.now d.now kind name map }
{
    let Some(i) = register::declared(s, d, sizes, register, kind, name) else {
        return Backing::NoTuple;
    };
    let end = decl_end(d, sizes.schema, i);
    items_backing(s, d, sizes, register, i + 1, end, map, marks)
}

// Whether both Names of Apart j are marked.
fn is_apart(s: &[u8], d: &[u8], sizes: Sizes, register: &[u32], j: u32, marks: &[u8]) -> bool
    requires registered { Registered s.now d.now sizes register.now }
    requires sizes_in_bounds { all_names sizes ≤ length marks.now }
    requires j_lt_tokens { j < sizes.schema.tokens }
    requires j_value { kind_of (doc_of d.now) j ≡ Kind.Apart }
    ensures { result ≡ apart_marked (tree_of (doc_of d.now)) (Least.texts_of d.now s.now) marks.now j }
{
    marks::is_marked(s, d, sizes, register, j + 1, marks)
        && marks::is_marked(s, d, sizes, register, j + 2, marks)
}

// Whether an Apart has both its Names marked.
fn any_apart(s: &[u8], d: &[u8], sizes: Sizes, register: &[u32], marks: &[u8]) -> bool
    requires registered { Registered s.now d.now sizes register.now }
    requires sizes_in_bounds { all_names sizes ≤ length marks.now }
    ensures { result ≡ any_of (apart_marked (tree_of (doc_of d.now)) (Least.texts_of d.now s.now) marks.now) (tokens_of (tree_of (doc_of d.now)) Kind.Apart) }
{
    let tokens = sizes.schema.tokens as usize;
    for k in 0..tokens {
        let j = register::apart(s, d, sizes, register, k);
        if j == 0 {
            return false;
        }
        if is_apart(s, d, sizes, register, j, marks) {
            return true;
        }
    }
    false
}

// The same of the statement's n labels from `at` on, which are marked in a list with room for N names.
fn any_marked<const N: usize>(
    s: &[u8],
    d: &[u8],
    sizes: Sizes,
    register: &[u32],
    at: u32,
    n: u32,
) -> bool
    requires labelled { Labelled s.now d.now sizes register.now at n }
    requires sizes_in_bounds { all_names sizes ≤ N }
    requires room_bound { N ≤ 2 * max_names }
    ensures { result ≡ apart_among (schema_of (tree_of (doc_of d.now))) (texts (tree_of (doc_of s.now)) at n) }
{
    let mut marks = [0; N];
    marks::mark_names(s, d, sizes, register, at, n, &mut marks);
    any_apart(s, d, sizes, register, &marks)
}

// Whether two of the statement's n labels from `at` on form an Apart, in either order: the Rust's labels_compatible
// is Some(false) exactly then.
pub fn labels_apart(s: &[u8], d: &[u8], sizes: Sizes, register: &[u32], at: u32, n: u32) -> bool
    requires { Labelled s.now d.now sizes register.now at n }
    ensures { result ≡ apart_among (schema_of (tree_of (doc_of d.now))) (texts (tree_of (doc_of s.now)) at n) }
{
    if sizes.schema.names + sizes.statement.names <= register::FEW_NAMES {
        any_marked::<{ register::FEW_MARKS }>(s, d, sizes, register, at, n)
    } else {
        any_marked::<{ register::ALL_NAMES }>(s, d, sizes, register, at, n)
    }
}
