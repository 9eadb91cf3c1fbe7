// The rules of both grammars: which kinds a place takes, and what stands below a token of a kind and value.
#![tactic(auto)]

ghost use Rattle.std.specs.Prelude.{◌≡◌, ◌++◌, ◌≤◌, ◌<◌};
ghost use Rattle.lists.specs.Lists.{through, is_one};
ghost use Rattle.rules.specs.declared.Place.TheVariants.{Expr, Name, PropertyType};
ghost use Rattle.rules.specs.Kinds as Kind;
ghost use Rattle.rules.specs.Rules.{takes, any, most_of};
ghost use Rattle.rules.specs.Shapes.{shape, Ruled};

pub mod kinds;

// What a token may be wanted for.
#[derive(Clone, Copy, PartialEq, Eq, Debug)]
pub enum Place {
    WholeStatement,
    Clause,
    SetItem,
    RemoveItem,
    Pattern,
    Part,
    Element,
    Expr,
    MapItem,
    Name,
    SpanStart,
    SpanEnd,
    WholeSchema,
    Declaration,
    LabelItem,
    RelTypeItem,
    PropertyType,
}

// A kind's rule at a value: the greatest value, and what stands below the token: a start and an end where it has a span
// (`spans` is 1, else 0), so many Names, so many pairs of a Name and an expression, and then two places more, each so
// many times.
#[derive(Clone, Copy, PartialEq, Eq, Debug)]
pub struct Shape {
    pub most: u32,
    pub spans: u32,
    pub names: u32,
    pub pairs: u32,
    pub first: Place,
    pub firsts: u32,
    pub second: Place,
    pub seconds: u32,
}

// The value of a count may be any u32.
const ANY: u32 = 4294967295;

// The most lists that a declared type stands under.
pub const MAX_LISTS: u32 = 63;

// Nothing below, and no value but 0.
const NOTHING: Shape = Shape {
    most: 0,
    spans: 0,
    names: 0,
    pairs: 0,
    first: Place::Expr,
    firsts: 0,
    second: Place::Expr,
    seconds: 0,
};

// Nothing.
fn leaf(most: u32) -> Shape
    ensures { result ≡ shape most 0 0 0 Expr 0 Expr 0 }
{
    Shape { most, ..NOTHING }
}

// So many of a place.
fn only(most: u32, first: Place, firsts: u32) -> Shape
    ensures { result ≡ shape most 0 0 0 first firsts Expr 0 }
{
    Shape {
        most,
        first,
        firsts,
        ..NOTHING
    }
}

// Names alone.
fn names(most: u32, names: u32) -> Shape
    ensures { result ≡ shape most 0 names 0 Expr 0 Expr 0 }
{
    Shape {
        most,
        names,
        ..NOTHING
    }
}

// A Name, and so many of a place.
fn named(most: u32, first: Place, firsts: u32) -> Shape
    ensures { result ≡ shape most 0 1 0 first firsts Expr 0 }
{
    Shape {
        most,
        names: 1,
        first,
        firsts,
        ..NOTHING
    }
}

// A span, Names, and so many expressions.
fn spanned(names: u32, expressions: u32) -> Shape
    ensures { result ≡ shape any 1 names 0 Expr expressions Expr 0 }
{
    Shape {
        most: ANY,
        spans: 1,
        names,
        firsts: expressions,
        ..NOTHING
    }
}

// So many of one place, and so many of another.
fn both(most: u32, first: Place, firsts: u32, second: Place, seconds: u32) -> Shape
    ensures { result ≡ shape most 0 0 0 first firsts second seconds }
{
    Shape {
        most,
        first,
        firsts,
        second,
        seconds,
        ..NOTHING
    }
}

// Pairs of a Name and an expression.
fn pairs(pairs: u32) -> Shape
    ensures { result ≡ shape any 0 0 pairs Expr 0 Expr 0 }
{
    Shape {
        most: ANY,
        pairs,
        ..NOTHING
    }
}

// A parameter: a Name, a type, and a default Name where there is one.
fn parameter(defaults: u32) -> Shape
    ensures { result ≡ shape 1 0 1 0 PropertyType 1 Name defaults }
{
    Shape {
        most: 1,
        names: 1,
        first: Place::PropertyType,
        firsts: 1,
        second: Place::Name,
        seconds: defaults,
        ..NOTHING
    }
}

// The rule of an expression's kind.
fn expression_rule(kind: u8, v: u32) -> Shape
    requires { kind < Kind.Computed }
    ensures { Ruled kind v result }
{
    let e = Place::Expr;
    match kind {
        kinds::PROP => named(0, e, 1),
        kinds::INDEX | kinds::BIN_OP | kinds::IN_LIST => only(0, e, 2),
        kinds::SLICE => both(3, e, 1 + v % 2, e, v / 2),
        kinds::LIST => only(ANY, e, v),
        kinds::MAP => pairs(v),
        kinds::FUNCTION_CALL => named(ANY, e, v),
        kinds::UNARY_OP..=kinds::IS_NULL => only(0, e, 1),
        kinds::CASE => both(ANY, e, v % 2 + 2 * (v / 4), e, v / 2 % 2),
        kinds::PATTERN_PREDICATE => only(0, Place::Pattern, 1),
        kinds::PATTERN_COMPREHENSION => both(1, Place::Pattern, 1, e, v % 2 + 1),
        kinds::LIST_COMPREHENSION => both(1, e, 1, e, v % 2 + 1),
        kinds::LIST_PREDICATE => both(1, e, 1, e, v),
        kinds::MAP_PROJECTION => both(ANY, e, 1, Place::MapItem, v),
        _ => leaf(0),
    }
}

// The rule of an item of a map projection, of a Name and of a Number.
fn item_rule(kind: u8, v: u32) -> Shape
    requires le_kind { Kind.Computed ≤ kind }
    requires kind_bound { kind < Kind.Pattern }
    ensures { Ruled kind v result }
{
    match kind {
        kinds::COMPUTED..=kinds::ALIASED => named(0, Place::Expr, 1),
        kinds::PROP_COPY..=kinds::VAR_SHORTHAND => names(0, 1),
        kinds::NAME..=kinds::NUMBER => leaf(ANY),
        _ => leaf(0),
    }
}

// The rule of a kind of patterns, clauses and statements.
fn clause_rule(kind: u8, v: u32) -> Shape
    requires le_kind { Kind.Pattern ≤ kind }
    requires kind_bound { kind < Kind.Schema }
    ensures { Ruled kind v result }
{
    let e = Place::Expr;
    match kind {
        kinds::PATTERN => only(ANY, Place::Part, v),
        kinds::PART => only(ANY, Place::Element, v),
        kinds::NODE..=kinds::REL => spanned(v / 2, v % 2),
        kinds::MATCH..=kinds::MERGE => only(0, Place::Pattern, 1),
        kinds::WHERE | kinds::UNWIND | kinds::ASSIGN_MAP | kinds::REMOVE_PROPERTY => only(0, e, 1),
        kinds::WITH => both(ANY, e, v / 2, e, v % 2),
        kinds::RETURN | kinds::DELETE => only(ANY, e, v),
        kinds::SET => only(ANY, Place::SetItem, v),
        kinds::REMOVE => only(ANY, Place::RemoveItem, v),
        kinds::SET_PROPERTY => only(0, e, 2),
        kinds::SET_LABELS | kinds::REMOVE_LABELS => names(ANY, v),
        kinds::PROCEDURE_CALL => spanned(1, v),
        kinds::STATEMENT => only(ANY, Place::Clause, v),
        _ => leaf(0),
    }
}

// The rule of a schema's kind.
fn schema_rule(kind: u8, v: u32) -> Shape
    requires { Kind.Schema ≤ kind }
    ensures { Ruled kind v result }
{
    match kind {
        kinds::SCHEMA => only(ANY, Place::Declaration, v),
        kinds::LABEL => named(ANY, Place::LabelItem, v),
        kinds::REL_TYPE => named(ANY, Place::RelTypeItem, v),
        kinds::PARAMETER => parameter(v),
        kinds::FUNCTION..=kinds::PROCEDURE => names(ANY, 1),
        kinds::APART => names(0, 2),
        kinds::PROPERTY => named(1, Place::PropertyType, 1),
        kinds::TUPLE => names(ANY, v),
        kinds::START..=kinds::END => names(0, 1),
        kinds::FIRST_TYPE..=kinds::LAST_TYPE => leaf(MAX_LISTS),
        _ => leaf(0),
    }
}

// The rule of a kind: its greatest value, and what stands below a token of that kind and value.
pub fn rule_of(kind: u8, value: u32) -> Shape
    ensures { Ruled kind value result }
{
    match kind {
        0..kinds::COMPUTED => expression_rule(kind, value),
        kinds::COMPUTED..kinds::PATTERN => item_rule(kind, value),
        kinds::PATTERN..kinds::SCHEMA => clause_rule(kind, value),
        _ => schema_rule(kind, value),
    }
}

// The greatest value of a kind, alone: the rule has it too. Kinds next to each other stand in two rows, so that each
// row is a list of kinds and no range, but for the types.
pub fn most_of(kind: u8) -> u32
    ensures { result ≡ most_of kind }
{
    match kind {
        kinds::LIST | kinds::FUNCTION_CALL | kinds::CASE | kinds::MAP_PROJECTION => ANY,
        kinds::MAP | kinds::NAME | kinds::PATTERN | kinds::NODE => ANY,
        kinds::NUMBER | kinds::PART | kinds::REL => ANY,
        kinds::WITH | kinds::SET | kinds::DELETE | kinds::SET_LABELS | kinds::REMOVE_LABELS => ANY,
        kinds::RETURN | kinds::REMOVE | kinds::PROCEDURE_CALL | kinds::STATEMENT => ANY,
        kinds::SCHEMA | kinds::REL_TYPE | kinds::FUNCTION | kinds::TUPLE => ANY,
        kinds::LABEL | kinds::PROCEDURE => ANY,
        kinds::SLICE => 3,
        kinds::PATTERN_COMPREHENSION | kinds::LIST_PREDICATE => 1,
        kinds::LIST_COMPREHENSION | kinds::PARAMETER | kinds::PROPERTY => 1,
        kinds::FIRST_TYPE..=kinds::LAST_TYPE => MAX_LISTS,
        _ => 0,
    }
}

fn between(kind: u8, low: u8, high: u8) -> bool
    ensures { result ≡ is_one (through low high) kind }
{
    low <= kind && kind <= high
}

// Whether a place takes a kind.
pub fn takes_kind(place: Place, kind: u8) -> bool
    ensures { result ≡ is_one (takes place) kind }
{
    match place {
        Place::WholeStatement => kind == kinds::STATEMENT,
        Place::Clause => {
            between(kind, kinds::MATCH, kinds::DELETE) || kind == kinds::PROCEDURE_CALL
        },
        Place::SetItem => between(kind, kinds::SET_PROPERTY, kinds::SET_LABELS),
        Place::RemoveItem => between(kind, kinds::REMOVE_PROPERTY, kinds::REMOVE_LABELS),
        Place::Pattern => kind == kinds::PATTERN,
        Place::Part => kind == kinds::PART,
        Place::Element => between(kind, kinds::NODE, kinds::REL),
        Place::Expr => {
            between(kind, kinds::NULL, kinds::MAP)
                || between(kind, kinds::FUNCTION_CALL, kinds::MAP_PROJECTION)
        },
        Place::MapItem => between(kind, kinds::COMPUTED, kinds::VAR_SHORTHAND),
        Place::Name => kind == kinds::NAME,
        Place::SpanStart | Place::SpanEnd => kind == kinds::NUMBER,
        Place::WholeSchema => kind == kinds::SCHEMA,
        Place::Declaration => between(kind, kinds::LABEL, kinds::APART),
        Place::LabelItem => between(kind, kinds::PROPERTY, kinds::TUPLE),
        Place::RelTypeItem => between(kind, kinds::PROPERTY, kinds::END),
        Place::PropertyType => between(kind, kinds::FIRST_TYPE, kinds::LAST_TYPE),
    }
}
