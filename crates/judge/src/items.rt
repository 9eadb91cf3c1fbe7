// The items of one token: its names, a Call's, a Set's labels, a Node's labels.
ghost use Rattle.std.specs.Prelude.{◌≡◌, true, not, false, [], ◌∷◌, ◌+◌, ◌/◌, ◌<◌, eqb, leb};
ghost use Rattle.rules.specs.Kinds as Kind;
ghost use Rattle.lists.specs.Lists.{pick, both, is_one};
ghost use Rattle.frame.specs.Doc.{doc_of, kind_of, value_of};
ghost use Rattle.frame.specs.Inner.{Sound};
ghost use Rattle.grammar.specs.Tree.{texts};
ghost use Rattle.provider.specs.Schema.{apart_among};
ghost use Rattle.provider.specs.Inner.{Labelled};
ghost use Rattle.breach.specs.Breach.{item, item_at, is_element, holder, statement_in, schema_in};
ghost use Rattle.breach.specs.Listing.{name_item, node_item, set_item, early};
ghost use Rattle.judge.specs.Window.{half_count, most_count, WroteItems};
ghost use Rattle.judge.specs.Judging.{Lent, Judged, function_item, procedure_item, name_items};

use crate::{Entry, Tally, codes};
use frame::{Sheet, Sizes};
use rules::kinds;

// An item with the span 0, 0.
fn put_spanless(i: u32, code: u32, stage: u32, tally: Tally, list: &mut [u32]) -> Tally
    requires { tally.count < most_count }
    ensures { WroteItems (item code 0 0 i stage 0 tally.clause ∷ []) tally list.old result list.new }
{
    crate::put_item(
        tally,
        Entry {
            code,
            start: 0,
            end: 0,
            owner: i,
            stage,
            ordinal: 0,
        },
        list,
    )
}

// An item with the token's own span, which the two Numbers behind it state.
pub fn put_at(
    s: &[u8],
    f: Sheet,
    i: u32,
    code: u32,
    stage: u32,
    ordinal: u32,
    tally: Tally,
    list: &mut [u32],
) -> Tally
    requires sound { Sound s.now f }
    requires i_value { kind_of (doc_of s.now) (i + 1) ≡ Kind.Number }
    requires i_value_2 { kind_of (doc_of s.now) (i + 2) ≡ Kind.Number }
    requires count_lt_most_count { tally.count < most_count }
    ensures { WroteItems (item_at (statement_in s.now) i code stage ordinal ∷ []) tally list.old result list.new }
{
    let start = frame::value(s, f, i + 1);
    let end = frame::value(s, f, i + 2);
    crate::put_item(
        tally,
        Entry {
            code,
            start,
            end,
            owner: i,
            stage,
            ordinal,
        },
        list,
    )
}

// Whether a number of arguments differs from the parameters (variadic: is less).
fn is_bad_count(parameters: u32, variadic: bool, n: u32) -> bool
    ensures { result ≡ pick variadic (not (leb parameters n)) (not (eqb n parameters)) }
{
    if variadic {
        n < parameters
    } else {
        n != parameters
    }
}

// What is wrong with the expression Call i.
fn call_item(
    s: &[u8],
    d: &[u8],
    sizes: Sizes,
    register: &[u32],
    i: u32,
    tally: Tally,
    list: &mut [u32],
) -> Tally
    requires lent { Lent s.now d.now sizes register.now }
    requires i_lt_tokens { i < sizes.statement.tokens }
    requires i_value { kind_of (doc_of s.now) i ≡ Kind.FunctionCall }
    requires count_lt_half_count { tally.count < half_count }
    ensures { Judged function_item s.now d.now i tally list.old result list.new }
{
    let Some(callee) = provider::function(s, d, sizes, register, i + 1) else {
        return put_spanless(i, codes::UNKNOWN_FUNCTION, codes::OF_NAMES, tally, list);
    };
    if is_bad_count(
        callee.parameters,
        callee.variadic,
        frame::value(s, sizes.statement, i),
    ) {
        return put_spanless(i, codes::WRONG_COUNT, codes::OF_NAMES, tally, list);
    }
    tally
}

// What is wrong with the clause Call i.
fn procedure_item(
    s: &[u8],
    d: &[u8],
    sizes: Sizes,
    register: &[u32],
    i: u32,
    tally: Tally,
    list: &mut [u32],
) -> Tally
    requires lent { Lent s.now d.now sizes register.now }
    requires i_lt_tokens { i < sizes.statement.tokens }
    requires i_value { kind_of (doc_of s.now) i ≡ Kind.ProcedureCall }
    requires count_lt_half_count { tally.count < half_count }
    ensures { Judged procedure_item s.now d.now i tally list.old result list.new }
{
    let Some(callee) = provider::procedure(s, d, sizes, register, i + 3) else {
        return put_at(
            s,
            sizes.statement,
            i,
            codes::UNKNOWN_PROCEDURE,
            codes::OF_NAMES,
            0,
            tally,
            list,
        );
    };
    if is_bad_count(
        callee.parameters,
        callee.variadic,
        frame::value(s, sizes.statement, i),
    ) {
        return put_at(
            s,
            sizes.statement,
            i,
            codes::WRONG_COUNT,
            codes::OF_NAMES,
            0,
            tally,
            list,
        );
    }
    tally
}

// The code for a name of an element that nothing declares.
fn undeclared_code(kind: u8) -> u32
    ensures { result ≡ pick (eqb kind Kind.Node) 3001 3002 }
{
    if kind == kinds::NODE {
        codes::UNKNOWN_LABEL
    } else {
        codes::UNKNOWN_REL_TYPE
    }
}

// What is wrong with name k of the element i.
fn name_item(
    s: &[u8],
    d: &[u8],
    sizes: Sizes,
    register: &[u32],
    i: u32,
    k: u32,
    tally: Tally,
    list: &mut [u32],
) -> Tally
    requires lent { Lent s.now d.now sizes register.now }
    requires i_lt_tokens { i < sizes.statement.tokens }
    requires i_value { is_element (kind_of (doc_of s.now) i) ≡ true }
    requires k_bound { k < value_of (doc_of s.now) i / 2 }
    requires count_lt_most_count { tally.count < most_count }
    ensures { WroteItems (name_item (statement_in s.now) (schema_in d.now) i k) tally list.old result list.new }
{
    let kind = frame::kind(s, sizes.statement, i);
    let owner = properties::owner_kind(kind);
    if provider::has_declared(s, d, sizes, register, owner, i + 3 + k) {
        return tally;
    }
    let code = undeclared_code(kind);
    put_at(s, sizes.statement, i, code, codes::OF_NAMES, k, tally, list)
}

// What is wrong with the names of the element i.
pub fn name_items(
    s: &[u8],
    d: &[u8],
    sizes: Sizes,
    register: &[u32],
    i: u32,
    tally: Tally,
    list: &mut [u32],
) -> Tally
    requires lent { Lent s.now d.now sizes register.now }
    requires i_lt_tokens { i < sizes.statement.tokens }
    requires i_value { is_element (kind_of (doc_of s.now) i) ≡ true }
    requires count_lt_half_count { tally.count < half_count }
    ensures { Judged name_items s.now d.now i tally list.old result list.new }
{
    let many = frame::value(s, sizes.statement, i) / 2;
    let mut tallied = tally;
    for k in 0..many {
        tallied = name_item(s, d, sizes, register, i, k, tallied, list);
    }
    tallied
}

// Whether a token is a Node, in a pattern that a Create or a Merge holds.
fn is_made(kind: u8, held: u8) -> bool
    ensures { result ≡ both (eqb kind Kind.Node) (is_one (Kind.Create ∷ Kind.Merge ∷ []) held) }
{
    kind == kinds::NODE && (held == kinds::CREATE || held == kinds::MERGE)
}

// Whether there are two labels or more, from `at` on, and two of them are apart.
fn are_apart(s: &[u8], d: &[u8], sizes: Sizes, register: &[u32], at: u32, many: u32) -> bool
    requires { Labelled s.now d.now sizes register.now at many }
    ensures { result ≡ both (leb 2 many) (apart_among (schema_in d.now) (texts (statement_in s.now) at many)) }
{
    2 <= many && provider::labels_apart(s, d, sizes, register, at, many)
}

// What is wrong with the Labels i of a Set.
fn set_item(
    s: &[u8],
    d: &[u8],
    sizes: Sizes,
    register: &[u32],
    i: u32,
    tally: Tally,
    list: &mut [u32],
) -> Tally
    requires lent { Lent s.now d.now sizes register.now }
    requires i_lt_tokens { i < sizes.statement.tokens }
    requires i_value { kind_of (doc_of s.now) i ≡ Kind.SetLabels }
    requires count_lt_half_count { tally.count < half_count }
    ensures { Judged set_item s.now d.now i tally list.old result list.new }
{
    if are_apart(
        s,
        d,
        sizes,
        register,
        i + 1,
        frame::value(s, sizes.statement, i),
    ) {
        return put_spanless(i, codes::LABELS_APART, codes::OF_LABELS, tally, list);
    }
    tally
}

// What is wrong with the labels of the element i together, by the kind of the token that holds its pattern.
pub fn node_item(
    s: &[u8],
    d: &[u8],
    sizes: Sizes,
    register: &[u32],
    i: u32,
    held: u8,
    tally: Tally,
    list: &mut [u32],
) -> Tally
    requires lent { Lent s.now d.now sizes register.now }
    requires i_lt_tokens { i < sizes.statement.tokens }
    requires i_value { is_element (kind_of (doc_of s.now) i) ≡ true }
    requires held_value { held ≡ holder (statement_in s.now) i }
    requires count_lt_half_count { tally.count < half_count }
    ensures { Judged node_item s.now d.now i tally list.old result list.new }
{
    if !is_made(frame::kind(s, sizes.statement, i), held) {
        return tally;
    }
    if are_apart(
        s,
        d,
        sizes,
        register,
        i + 3,
        frame::value(s, sizes.statement, i) / 2,
    ) {
        return put_at(
            s,
            sizes.statement,
            i,
            codes::LABELS_APART,
            codes::OF_LABELS,
            0,
            tally,
            list,
        );
    }
    tally
}

// What is wrong with the token i, which is no element.
pub fn token_items(
    s: &[u8],
    d: &[u8],
    sizes: Sizes,
    register: &[u32],
    i: u32,
    tally: Tally,
    list: &mut [u32],
) -> Tally
    requires lent { Lent s.now d.now sizes register.now }
    requires i_lt_tokens { i < sizes.statement.tokens }
    requires i_value { is_element (kind_of (doc_of s.now) i) ≡ false }
    requires count_lt_half_count { tally.count < half_count }
    ensures { Judged early s.now d.now i tally list.old result list.new }
{
    match frame::kind(s, sizes.statement, i) {
        kinds::FUNCTION_CALL => call_item(s, d, sizes, register, i, tally, list),
        kinds::PROCEDURE_CALL => procedure_item(s, d, sizes, register, i, tally, list),
        kinds::SET_LABELS => set_item(s, d, sizes, register, i, tally, list),
        _ => tally,
    }
}
