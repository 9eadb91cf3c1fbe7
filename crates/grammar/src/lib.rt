// Reads the tokens of a sheet against the rules of a grammar: every sheet is read to its end, or refused with 8, 6, 7
// or 9 at a place.
#![tactic(auto)]

ghost use Rattle.std.specs.Prelude.{◌≡◌, true, [], ◌∷◌, ◌+◌, ◌*◌, ◌≤◌, ◌<◌, length, Some, None, Ok, Err};
ghost use Rattle.frame.specs.Sheet.{fault};
ghost use Rattle.frame.specs.Doc.{doc_of, value_of};
ghost use Rattle.frame.specs.Inner.{Sound};
ghost use Rattle.rules.specs.declared.Place.{Place};
ghost use Rattle.rules.specs.declared.Place.TheVariants.{WholeStatement, Expr, Name, PropertyType};
ghost use Rattle.rules.specs.Kinds as Kind;
ghost use Rattle.rules.specs.Rules.{many, pairs, most_of, opens, arity};
ghost use Rattle.rules.specs.Shapes.{span_places};
ghost use Rattle.grammar.specs.Machine.{want, opened, bounded, allowed, grammar_fault};
ghost use Rattle.grammar.specs.Tree.{tree_of, end};
ghost use Rattle.grammar.specs.Inner.{NameAt, from, and_then, read_of, refusals, judged_at, children_from, Leaf, Item, Ready, Resumes, Stands, Below, most_trees};

use frame::{Fault, Sheet};
use rules::{Place, Shape, kinds};

// Whether a Name is below the number of names, and the end of a span not below its start.
fn in_bounds(s: &[u8], f: Sheet, at: u32, place: Place, value: u32) -> bool
    requires sound { Sound s.now f }
    requires at_lt_tokens { at < f.tokens }
    requires value_value { value ≡ value_of (doc_of s.now) at }
    ensures { result ≡ bounded (doc_of s.now) place at }
{
    match place {
        Place::Name => value < f.names,
        Place::SpanEnd => at == 0 || frame::value(s, f, at - 1) <= value,
        _ => true,
    }
}

// Whether a place takes token `at`: its kind, and a value that the kind and the place allow.
fn allowed(s: &[u8], f: Sheet, at: u32, place: Place) -> bool
    requires sound { Sound s.now f }
    requires at_lt_tokens { at < f.tokens }
    ensures { result ≡ allowed (doc_of s.now) place at }
{
    let kind = frame::kind(s, f, at);
    let value = frame::value(s, f, at);
    rules::takes_kind(place, kind)
        && value <= rules::most_of(kind)
        && in_bounds(s, f, at, place, value)
}

// A refusal's number at a place.
fn fault_at(number: u32, place: u32) -> Option<Fault>
    ensures { result ≡ Some (fault number place) }
{
    Some(Fault { number, place })
}

// What is wrong with token `at` where a place waits for it at a depth: 8, 6 or 7, in that order.
fn judge(s: &[u8], f: Sheet, at: u32, depth: u32, place: Place) -> Option<Fault>
    requires { Sound s.now f }
    ensures { result ≡ judged_at (doc_of s.now) place depth at }
{
    if f.tokens <= at {
        return fault_at(8, at);
    }
    if !allowed(s, f, at, place) {
        return fault_at(6, at);
    }
    if Sheet::MAX_DEPTH < depth {
        return fault_at(7, at);
    }
    None
}

// A read in one number: below this the token after what was read, else so many times a refusal's number, and its
// place. A number is returned in a register of the processor, and a `Result` of a `Fault` through memory.
const REFUSALS: u32 = 2 * Sheet::MAX_TOKENS;

// A refusal as such a number.
fn refused(refusal: Fault) -> u32
    requires number_nonzero { (0 < refusal.number) × (refusal.number < 10) }
    requires place_lt_refusals { refusal.place < refusals }
    ensures { read_of result ≡ Err refusal }
{
    REFUSALS * refusal.number + refusal.place
}

// Whether token `at` is there, has a kind from one to another, and is not too deep. What is not so is left to `judge`.
fn stands(s: &[u8], f: Sheet, at: u32, depth: u32, low: u8, high: u8) -> bool
    requires { Sound s.now f }
    ensures { result ≡ true → Stands (doc_of s.now) at depth low high }
{
    if f.tokens <= at {
        return false;
    }
    let kind = frame::kind(s, f, at);
    low <= kind && kind <= high && depth <= Sheet::MAX_DEPTH
}

// Whether a Name can be read at once.
fn is_name(s: &[u8], f: Sheet, at: u32, depth: u32) -> bool
    requires { Sound s.now f }
    ensures { result ≡ true → Ok (at + 1) ≡ from (doc_of s.now) at (want Name depth ∷ []) }
{
    stands(s, f, at, depth, kinds::NAME, kinds::NAME) && frame::value(s, f, at) < f.names
}

// Whether a start and an end can.
fn is_span(s: &[u8], f: Sheet, at: u32, depth: u32) -> bool
    requires { Sound s.now f }
    ensures { result ≡ true → Ok (at + 2) ≡ from (doc_of s.now) at (opened depth (span_places 1 []) []) }
{
    stands(s, f, at, depth, kinds::NUMBER, kinds::NUMBER)
        && stands(s, f, at + 1, depth, kinds::NUMBER, kinds::NUMBER)
        && frame::value(s, f, at) <= frame::value(s, f, at + 1)
}

// Whether an expression that opens nothing can.
fn is_small(s: &[u8], f: Sheet, at: u32, depth: u32) -> bool
    requires { Sound s.now f }
    ensures { result ≡ true → Ok (at + 1) ≡ from (doc_of s.now) at (want Expr depth ∷ []) }
{
    stands(
        s,
        f,
        at,
        depth,
        kinds::NULL,
        kinds::EXISTS_SUBQUERY_DEFERRED,
    ) && frame::value(s, f, at) == 0
}

// Whether a Prop can be read as one pair.
fn is_prop(s: &[u8], f: Sheet, at: u32, depth: u32) -> bool
    requires { Sound s.now f }
    ensures { result ≡ true → Stands (doc_of s.now) at depth Kind.Prop Kind.Prop × (value_of (doc_of s.now) at ≡ 0) }
{
    stands(s, f, at, depth, kinds::PROP, kinds::PROP) && frame::value(s, f, at) == 0
}

// Whether a declared type can.
fn is_type(s: &[u8], f: Sheet, at: u32, depth: u32) -> bool
    requires { Sound s.now f }
    ensures { result ≡ true → Ok (at + 1) ≡ from (doc_of s.now) at (want PropertyType depth ∷ []) }
{
    stands(s, f, at, depth, kinds::FIRST_TYPE, kinds::LAST_TYPE)
        && frame::value(s, f, at) <= rules::MAX_LISTS
}

// Whether a Property can, with its Name and its type.
fn is_property(s: &[u8], f: Sheet, at: u32, depth: u32) -> bool
    requires { Sound s.now f }
    ensures { result ≡ true → (p : Place) → Item p → Ok (at + 3) ≡ from (doc_of s.now) at (want p depth ∷ []) }
{
    stands(s, f, at, depth, kinds::PROPERTY, kinds::PROPERTY)
        && frame::value(s, f, at) <= 1
        && is_name(s, f, at + 1, depth + 1)
        && is_type(s, f, at + 2, depth + 1)
}

// After `r`, unless it is a refusal, reads `count` of a place whose tokens have nothing below them.
fn leaves(s: &[u8], f: Sheet, r: u32, depth: u32, place: Place, count: u32) -> u32
    requires resumes { Resumes s.now f (read_of r) }
    requires leaf { Leaf place }
    ensures { read_of result ≡ and_then (doc_of s.now) (read_of r) (opened depth (many count place []) []) }
{
    if REFUSALS <= r {
        return r;
    }
    let mut next = r;
    for _ in 0..count {
        if let Some(refusal) = judge(s, f, next, depth, place) {
            return refused(refusal);
        }
        next += 1;
    }
    next
}

// The same of Names, which are passed over while they can be read at once.
fn names_of(s: &[u8], f: Sheet, r: u32, depth: u32, count: u32) -> u32
    requires { Resumes s.now f (read_of r) }
    ensures { read_of result ≡ and_then (doc_of s.now) (read_of r) (opened depth (many count Name []) []) }
{
    if REFUSALS <= r {
        return r;
    }
    let mut next = r;
    for k in 0..count {
        if !is_name(s, f, next, depth) {
            return leaves(s, f, next, depth, Place::Name, count - k);
        }
        next += 1;
    }
    next
}

// Reads the start and the end of a span where `spans` is 1, and nothing where it is 0.
fn ends(s: &[u8], f: Sheet, at: u32, depth: u32, spans: u32) -> u32
    requires { Ready s.now f at }
    ensures { read_of result ≡ from (doc_of s.now) at (opened depth (span_places spans []) []) }
{
    if spans == 0 {
        return at;
    }
    let start = leaves(s, f, at, depth, Place::SpanStart, spans);
    leaves(s, f, start, depth, Place::SpanEnd, spans)
}

// Reads the start and the end of one span.
fn span(s: &[u8], f: Sheet, at: u32, depth: u32) -> u32
    requires { Ready s.now f at }
    ensures { read_of result ≡ from (doc_of s.now) at (opened depth (span_places 1 []) []) }
{
    if is_span(s, f, at, depth) {
        return at + 2;
    }
    ends(s, f, at, depth, 1)
}

// After `r`, unless it is a refusal, reads `count` of a place.
#[cycle(children_compound_element_expression_expressions_item_many_of_one_other_pairs_of_part_pattern)]
fn many_of(s: &[u8], f: Sheet, r: u32, depth: u32, place: Place, count: u32) -> u32
    requires { Resumes s.now f (read_of r) }
    ensures { read_of result ≡ and_then (doc_of s.now) (read_of r) (opened depth (many count place []) []) }
{
    if REFUSALS <= r {
        return r;
    }
    let mut next = r;
    for _ in 0..count {
        let q = one(s, f, next, depth, place);
        if REFUSALS <= q {
            return q;
        }
        next = q;
    }
    next
}

// The same of expressions.
#[cycle(children_compound_element_expression_expressions_item_many_of_one_other_pairs_of_part_pattern)]
fn expressions(s: &[u8], f: Sheet, r: u32, depth: u32, count: u32) -> u32
    requires { Resumes s.now f (read_of r) }
    ensures { read_of result ≡ and_then (doc_of s.now) (read_of r) (opened depth (many count Expr []) []) }
{
    if REFUSALS <= r {
        return r;
    }
    let mut next = r;
    for _ in 0..count {
        let q = expression(s, f, next, depth);
        if REFUSALS <= q {
            return q;
        }
        next = q;
    }
    next
}

// After `r`, unless it is a refusal, reads `count` pairs of a Name and an expression.
#[cycle(children_compound_element_expression_expressions_item_many_of_one_other_pairs_of_part_pattern)]
fn pairs_of(s: &[u8], f: Sheet, r: u32, depth: u32, count: u32) -> u32
    requires { Resumes s.now f (read_of r) }
    ensures { read_of result ≡ and_then (doc_of s.now) (read_of r) (opened depth (pairs count []) []) }
{
    if REFUSALS <= r {
        return r;
    }
    let mut next = r;
    for _ in 0..count {
        let k = names_of(s, f, next, depth, 1);
        let q = expressions(s, f, k, depth, 1);
        if REFUSALS <= q {
            return q;
        }
        next = q;
    }
    next
}

// Reads what stands below token `at`, by the rule of its kind.
#[cycle(children_compound_element_expression_expressions_item_many_of_one_other_pairs_of_part_pattern)]
fn children(s: &[u8], f: Sheet, at: u32, depth: u32) -> u32
    requires { Below s.now f at depth }
    ensures { read_of result ≡ children_from (doc_of s.now) at depth }
{
    let x = rules::rule_of(frame::kind(s, f, at), frame::value(s, f, at));
    let first = x.first;
    let second = x.second;
    let d = depth + 1;
    let a = ends(s, f, at + 1, d, x.spans);
    let b = names_of(s, f, a, d, x.names);
    let c = pairs_of(s, f, b, d, x.pairs);
    let e = many_of(s, f, c, d, first, x.firsts);
    many_of(s, f, e, d, second, x.seconds)
}

// Reads one token in any place, and what stands below it.
#[cycle(children_compound_element_expression_expressions_item_many_of_one_other_pairs_of_part_pattern)]
fn other(s: &[u8], f: Sheet, at: u32, depth: u32, place: Place) -> u32
    requires { Ready s.now f at }
    ensures { read_of result ≡ from (doc_of s.now) at (want place depth ∷ []) }
{
    if let Some(refusal) = judge(s, f, at, depth, place) {
        return refused(refusal);
    }
    children(s, f, at, depth)
}

// Reads one expression. Those that open nothing are the most frequent.
#[cycle(children_compound_element_expression_expressions_item_many_of_one_other_pairs_of_part_pattern)]
fn expression(s: &[u8], f: Sheet, at: u32, depth: u32) -> u32
    requires { Ready s.now f at }
    ensures { read_of result ≡ from (doc_of s.now) at (want Place.Expr depth ∷ []) }
{
    if is_small(s, f, at, depth) {
        return at + 1;
    }
    compound(s, f, at, depth)
}

// Reads one expression that opens something: a Map, a List and a Prop without a look at the rules.
#[cycle(children_compound_element_expression_expressions_item_many_of_one_other_pairs_of_part_pattern)]
fn compound(s: &[u8], f: Sheet, at: u32, depth: u32) -> u32
    requires { Ready s.now f at }
    ensures { read_of result ≡ from (doc_of s.now) at (want Place.Expr depth ∷ []) }
{
    if stands(s, f, at, depth, kinds::MAP, kinds::MAP) {
        return pairs_of(s, f, at + 1, depth + 1, frame::value(s, f, at));
    }
    if stands(s, f, at, depth, kinds::LIST, kinds::LIST) {
        return expressions(s, f, at + 1, depth + 1, frame::value(s, f, at));
    }
    if is_prop(s, f, at, depth) {
        return pairs_of(s, f, at + 1, depth + 1, 1);
    }
    other(s, f, at, depth, Place::Expr)
}

// Reads one pattern: its parts, which hold elements.
#[cycle(children_compound_element_expression_expressions_item_many_of_one_other_pairs_of_part_pattern)]
fn pattern(s: &[u8], f: Sheet, at: u32, depth: u32) -> u32
    requires { Ready s.now f at }
    ensures { read_of result ≡ from (doc_of s.now) at (want Place.Pattern depth ∷ []) }
{
    if stands(s, f, at, depth, kinds::PATTERN, kinds::PATTERN) {
        return many_of(s, f, at + 1, depth + 1, Place::Part, frame::value(s, f, at));
    }
    other(s, f, at, depth, Place::Pattern)
}

// Reads one part of a pattern: its elements.
#[cycle(children_compound_element_expression_expressions_item_many_of_one_other_pairs_of_part_pattern)]
fn part(s: &[u8], f: Sheet, at: u32, depth: u32) -> u32
    requires { Ready s.now f at }
    ensures { read_of result ≡ from (doc_of s.now) at (want Place.Part depth ∷ []) }
{
    if stands(s, f, at, depth, kinds::PART, kinds::PART) {
        return many_of(
            s,
            f,
            at + 1,
            depth + 1,
            Place::Element,
            frame::value(s, f, at),
        );
    }
    other(s, f, at, depth, Place::Part)
}

// Reads one element, a Node or a Rel: its span, its names, and its properties, which are an expression.
#[cycle(children_compound_element_expression_expressions_item_many_of_one_other_pairs_of_part_pattern)]
fn element(s: &[u8], f: Sheet, at: u32, depth: u32) -> u32
    requires { Ready s.now f at }
    ensures { read_of result ≡ from (doc_of s.now) at (want Place.Element depth ∷ []) }
{
    if !stands(s, f, at, depth, kinds::NODE, kinds::REL) {
        return other(s, f, at, depth, Place::Element);
    }
    let value = frame::value(s, f, at);
    let d = depth + 1;
    let a = span(s, f, at + 1, d);
    let b = names_of(s, f, a, d, value / 2);
    expressions(s, f, b, d, value % 2)
}

// Reads one item of a declaration. Properties are the most frequent.
#[cycle(children_compound_element_expression_expressions_item_many_of_one_other_pairs_of_part_pattern)]
fn item(s: &[u8], f: Sheet, at: u32, depth: u32, place: Place) -> u32
    requires ready { Ready s.now f at }
    requires item { Item place }
    ensures { read_of result ≡ from (doc_of s.now) at (want place depth ∷ []) }
{
    if is_property(s, f, at, depth) {
        return at + 3;
    }
    other(s, f, at, depth, place)
}

// Reads one of a place.
#[cycle(children_compound_element_expression_expressions_item_many_of_one_other_pairs_of_part_pattern)]
fn one(s: &[u8], f: Sheet, at: u32, depth: u32, place: Place) -> u32
    requires { Ready s.now f at }
    ensures { read_of result ≡ from (doc_of s.now) at (want place depth ∷ []) }
{
    match place {
        Place::Expr => expression(s, f, at, depth),
        Place::Pattern => pattern(s, f, at, depth),
        Place::Part => part(s, f, at, depth),
        Place::Element => element(s, f, at, depth),
        Place::LabelItem | Place::RelTypeItem => item(s, f, at, depth, place),
        _ => other(s, f, at, depth, place),
    }
}

// What is wrong with a framed sheet's tokens, read as a statement or as a schema: 8, 6 or 7 at the first token that
// has it, lastly 9.
pub fn read_tokens(s: &[u8], f: Sheet, place: Place) -> Option<Fault>
    requires { Sound s.now f }
    ensures { result ≡ grammar_fault place (doc_of s.now) }
{
    let q = one(s, f, 0, 0, place);
    if REFUSALS <= q {
        return fault_at(q / REFUSALS, q % REFUSALS);
    }
    if q < f.tokens {
        return fault_at(9, q);
    }
    None
}

// The text of a Name token, as a part of the sheet. It serves the crates above, which know that the token is a Name.
pub fn text_of(s: &[u8], f: Sheet, i: u32) -> &[u8]
    requires sound { Sound s.now f }
    requires name_at { NameAt (doc_of s.now) i }
    ensures { result.now ≡ (tree_of (doc_of s.now)).text i }
{
    frame::name(s, f, frame::value(s, f, i))
}

// How many places a shape stands for.
fn size_of(x: Shape) -> u64
    ensures { (result ≡ 2 * x.spans + x.names + 2 * x.pairs + x.firsts + x.seconds) × (result < most_trees) }
{
    let leaves = 2 * (x.spans as u64) + (x.names as u64);
    leaves + 2 * (x.pairs as u64) + (x.firsts as u64) + (x.seconds as u64)
}

// How many places a token of a kind and value opens: of frequent kinds without a look at the rules. Kinds next to each
// other stand in two arms, so that each arm is a list of kinds and no range.
fn places_of(kind: u8, value: u32) -> u64
    requires { value ≤ most_of kind }
    ensures { (result ≡ length (opens kind value)) × (result < most_trees) }
{
    let v = value as u64;
    match kind {
        kinds::NAME => 0,
        kinds::PROP | kinds::BIN_OP => 2,
        kinds::LIST | kinds::PATTERN => v,
        kinds::PART => v,
        kinds::MAP => 2 * v,
        kinds::FUNCTION_CALL => 1 + v,
        kinds::NODE => 2 + v / 2 + v % 2,
        kinds::REL => 2 + v / 2 + v % 2,
        kinds::MATCH | kinds::MERGE => 1,
        kinds::CREATE => 1,
        _ => size_of(rules::rule_of(kind, value)),
    }
}

// How many trees belong to token i. It serves the crates above as well.
pub fn arity_of(s: &[u8], f: Sheet, i: u32) -> u64
    requires sound { Sound s.now f }
    requires s_value { grammar_fault WholeStatement (doc_of s.now) ≡ None }
    requires i_lt_tokens { i < f.tokens }
    ensures { (result ≡ arity ((tree_of (doc_of s.now)).kind i) ((tree_of (doc_of s.now)).value i)) × (result < most_trees) }
{
    let kind = frame::kind(s, f, i);
    if kind < kinds::PROP {
        return 0;
    }
    places_of(kind, frame::value(s, f, i))
}

// The token after the tree at i. It serves the crates above.
pub fn skip(s: &[u8], f: Sheet, i: u32) -> u32
    requires sound { Sound s.now f }
    requires s_value { grammar_fault WholeStatement (doc_of s.now) ≡ None }
    requires i_lt_tokens { i < f.tokens }
    ensures { result ≡ end (tree_of (doc_of s.now)) i }
{
    let mut need: u64 = 1;
    let mut at = i;
    while 0 < need {
        if at == f.tokens {
            return at;
        }
        need = need - 1 + arity_of(s, f, at);
        at += 1;
    }
    at
}
