// Opens the sheets of the operations: what turns a statement or a schema down.
#![tactic(auto)]

ghost use Rattle.std.specs.Prelude.{◌≡◌, false, ℕ, ◌<◌, eqb, None};
ghost use Rattle.rules.specs.Kinds as Kind;
ghost use Rattle.lists.specs.Lists.{both, first};
ghost use Rattle.frame.specs.Doc.{doc_of, kind_of};
ghost use Rattle.grammar.specs.Tree.{tree_of};
ghost use Rattle.schema.specs.Declarations.{equal_apart, fault_at, declared_fault};
ghost use Rattle.schema.specs.Scanned.{tokens_of, repeats};
ghost use Rattle.schema.specs.Inner.{Declared, statement_frame, schema_frame};
ghost use Rattle.schema.specs.Effect.{answer_of, read_statement, read_schema};
ghost use Rattle.register.specs.Register.{Exact, Registered};
ghost use Rattle.opening.specs.Reading.{frame_as, read_both, Single, again_fault, repeated_fault};

use frame::{Fault, Sheet, Sizes};
use rules::{Place, kinds};
use schema::{Answer, Refusal};

// A statement without clauses: one token, no names, no text; and the token, its kind and its value. With it a register
// is one of a schema alone.
const NO_CLAUSE: [u8; 17] = [
    1,
    0,
    0,
    0,
    0,
    0,
    0,
    0,
    0,
    0,
    0,
    0,
    kinds::STATEMENT,
    0,
    0,
    0,
    0,
];

// Reads a sheet as a whole statement or a whole schema: its sizes, or why it is refused, 1 to 9.
fn read_as(s: &[u8], place: Place) -> Result<Sheet, Fault>
    ensures { result ≡ frame_as place s.now }
{
    let f = frame::read(s)?;
    match grammar::read_tokens(s, f, place) {
        Some(fault) => Err(fault),
        None => Ok(f),
    }
}

// Whether token j is a Label, RelType or Parameter, and an earlier one of its kind has its name.
fn is_again(s: &[u8], d: &[u8], sizes: Sizes, register: &[u32], j: u32) -> bool
    requires registered { Registered s.now d.now sizes register.now }
    requires j_lt_tokens { j < sizes.schema.tokens }
    ensures { result ≡ false → (k : ℕ) → Single k → both (eqb ((tree_of (doc_of d.now)).kind j) k) (repeats (tree_of (doc_of d.now)) k j) ≡ false }
{
    let kind = frame::kind(d, sizes.schema, j);
    kinds::LABEL <= kind
        && kind <= kinds::PARAMETER
        && register::is_again(s, d, sizes, register, kind, j)
}

// Whether there is such a token. Most schemas have none, and are gone over once.
fn any_again(s: &[u8], d: &[u8], sizes: Sizes, register: &[u32]) -> bool
    requires { Registered s.now d.now sizes register.now }
    ensures { result ≡ false → (k : ℕ) → Single k → None ≡ first (repeats (tree_of (doc_of d.now)) k) (tokens_of (tree_of (doc_of d.now)) k) }
{
    let tokens = sizes.schema.tokens;
    for j in 0..tokens {
        if is_again(s, d, sizes, register, j) {
            return true;
        }
    }
    false
}

// Whether token j is of a kind, and an earlier one has its kind and name.
fn is_again_of(s: &[u8], d: &[u8], sizes: Sizes, register: &[u32], kind: u8, j: u32) -> bool
    requires registered { Registered s.now d.now sizes register.now }
    requires exact { Exact kind }
    requires j_lt_tokens { j < sizes.schema.tokens }
    ensures { result ≡ both (eqb ((tree_of (doc_of d.now)).kind j) kind) (repeats (tree_of (doc_of d.now)) kind j) }
{
    frame::kind(d, sizes.schema, j) == kind && register::is_again(s, d, sizes, register, kind, j)
}

// The first declaration of a kind that repeats an earlier one's name, refused with a number.
fn again_fault(
    s: &[u8],
    d: &[u8],
    sizes: Sizes,
    register: &[u32],
    number: u32,
    kind: u8,
) -> Option<Fault>
    requires registered { Registered s.now d.now sizes register.now }
    requires exact { Exact kind }
    ensures { result ≡ again_fault (tree_of (doc_of d.now)) number kind }
{
    let tokens = sizes.schema.tokens;
    for j in 0..tokens {
        if is_again_of(s, d, sizes, register, kind, j) {
            return Some(Fault { number, place: j });
        }
    }
    None
}

// A label, RelType, parameter declared again: 10 to 12, in turn.
fn repeated_fault(s: &[u8], d: &[u8], sizes: Sizes, register: &[u32]) -> Option<Fault>
    requires { Registered s.now d.now sizes register.now }
    ensures { result ≡ repeated_fault (tree_of (doc_of d.now)) }
{
    if !any_again(s, d, sizes, register) {
        return None;
    }
    again_fault(s, d, sizes, register, 10, kinds::LABEL)
        .or_else(|| again_fault(s, d, sizes, register, 11, kinds::REL_TYPE))
        .or_else(|| again_fault(s, d, sizes, register, 12, kinds::PARAMETER))
}

// Whether the Apart at token j is one of equal texts.
fn is_equal_apart(s: &[u8], d: &[u8], sizes: Sizes, register: &[u32], j: u32) -> bool
    requires registered { Registered s.now d.now sizes register.now }
    requires j_lt_tokens { j < sizes.schema.tokens }
    requires j_value { kind_of (doc_of d.now) j ≡ Kind.Apart }
    ensures { result ≡ equal_apart (tree_of (doc_of d.now)) j }
{
    register::number_in(s, d, sizes, register, j + 1)
        == register::number_in(s, d, sizes, register, j + 2)
}

// The first Apart of equal texts: 13.
fn apart_fault(s: &[u8], d: &[u8], sizes: Sizes, register: &[u32]) -> Option<Fault>
    requires { Registered s.now d.now sizes register.now }
    ensures { result ≡ fault_at 13 (first (equal_apart (tree_of (doc_of d.now))) (tokens_of (tree_of (doc_of d.now)) Kind.Apart)) }
{
    let tokens = sizes.schema.tokens as usize;
    for k in 0..tokens {
        let j = register::apart(s, d, sizes, register, k);
        if j == 0 {
            return None;
        }
        if is_equal_apart(s, d, sizes, register, j) {
            return Some(Fault {
                number: 13,
                place: j,
            });
        }
    }
    None
}

// What is wrong with the declarations of a schema that was read: 10 to 13, in turn. It serves the crates above, which
// go on with the same register.
pub fn declared_fault(s: &[u8], d: &[u8], sizes: Sizes, register: &[u32]) -> Option<Fault>
    requires { Registered s.now d.now sizes register.now }
    ensures { result ≡ declared_fault (tree_of (doc_of d.now)) }
{
    repeated_fault(s, d, sizes, register).or_else(|| apart_fault(s, d, sizes, register))
}

// The same of a schema alone.
fn alone_fault(d: &[u8], g: Sheet) -> Option<Fault>
    requires { Declared d.now g }
    ensures { result ≡ declared_fault (tree_of (doc_of d.now)) }
{
    let s = NO_CLAUSE;
    let sizes = Sizes {
        statement: Sheet {
            tokens: 1,
            names: 0,
            text: 0,
        },
        schema: g,
    };
    if register::is_short(sizes) {
        let mut few = [0; register::FEW_ROOM];
        register::fill(&s, d, sizes, &mut few);
        return declared_fault(&s, d, sizes, &few);
    }
    let mut all = [0; register::ROOM];
    register::fill(&s, d, sizes, &mut all);
    declared_fault(&s, d, sizes, &all)
}

// Opens a statement sheet: its sizes, or why it is refused. It serves the crates above, whose operations take
// statements alone.
pub fn open_statement(s: &[u8]) -> Result<Sheet, Fault>
    ensures { result ≡ statement_frame s.now }
{
    read_as(s, Place::WholeStatement)
}

// Opens a schema sheet: its sizes, or why it is refused. It serves the crates above, whose operations take a schema
// alone.
pub fn open_schema(s: &[u8]) -> Result<Sheet, Fault>
    ensures { result ≡ schema_frame s.now }
{
    let f = read_as(s, Place::WholeSchema)?;
    match alone_fault(s, f) {
        Some(fault) => Err(fault),
        None => Ok(f),
    }
}

// Reads the two sheets of an operation, the statement first. 10 to 13 are still to be looked for, by `declared_fault`.
// It serves the crates above, which write the answers of the operations.
pub fn read_both(statement: &[u8], schema: &[u8]) -> Result<Sizes, Refusal>
    ensures { result ≡ read_both statement.now schema.now }
{
    let f = schema::on_sheet(read_as(statement, Place::WholeStatement), 1)?;
    let g = schema::on_sheet(read_as(schema, Place::WholeSchema), 2)?;
    Ok(Sizes {
        statement: f,
        schema: g,
    })
}

// Reads a statement sheet: accepted with 0, or refused with 1 to 9 and sheet 1.
pub fn read_statement(s: &[u8]) -> Answer
    ensures { result ≡ answer_of (read_statement s.now) }
{
    schema::on_sheet(open_statement(s), 1)?;
    Ok(0)
}

// Reads a schema sheet: accepted with 0, or refused with 1 to 13 and sheet 2.
pub fn read_schema(s: &[u8]) -> Answer
    ensures { result ≡ answer_of (read_schema s.now) }
{
    schema::on_sheet(open_schema(s), 2)?;
    Ok(0)
}
