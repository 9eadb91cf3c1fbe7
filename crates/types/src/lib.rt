// Literal types, and which of them a declared type takes.
#![tactic(auto)]

ghost use Rattle.std.specs.Prelude.{◌≡◌, ◌+◌};
ghost use Rattle.frame.specs.Doc.{doc_of};
ghost use Rattle.frame.specs.Inner.{Sound};
ghost use Rattle.rules.specs.Kinds as Kind;
ghost use Rattle.grammar.specs.Tree.{tree_of};
ghost use Rattle.types.specs.Types.{loose, wide, literal, compatible, types_compatible};

use frame::Sheet;
use rules::kinds;

pub mod declared_types;
pub mod inferred_types;

// A type: its base, and under how many lists it stands. An inferred base is a row of the table below, a declared one
// a column.
#[derive(Clone, Copy)]
pub struct Ty {
    pub base: u8,
    pub depth: u32,
}

// How many declared types there are: the columns of the table.
const COLUMNS: usize = 9;

// Which inferred types pass for which declared ones, lists aside. A row for each inferred type: Any, Null, Bool, Int,
// Float, String, Num, Date, Datetime, Map, Node, Relationship, Path, Union, Unknown. A column for each declared one:
// String, Int, Float, Bool, Date, Datetime, Enum, Opaque, Any.
const COMPATIBLE: [u8; 135] = *b"\
    111111111\
    111111111\
    000100111\
    010000111\
    001000111\
    100000111\
    011000111\
    000010111\
    000001111\
    000000111\
    000000111\
    000000111\
    000000111\
    000000111\
    111111111\
";

// The type of the expression at token `at`, if it is a literal: kinds 1 to 5 have their own, which is the kind's
// number, an empty list is List(Any), and any other list has its first item's type, one list deeper.
pub fn infer_literal_type(s: &[u8], f: Sheet, at: u32) -> Option<Ty>
    requires { Sound s.now f }
    ensures { result ≡ literal (tree_of (doc_of s.now)) at }
{
    if f.tokens <= at {
        return None;
    }
    let kind = frame::kind(s, f, at);
    match kind {
        kinds::NULL..=kinds::STRING => Some(Ty {
            base: kind,
            depth: 0,
        }),
        kinds::LIST => {
            if frame::value(s, f, at) == 0 {
                return Some(Ty {
                    base: inferred_types::ANY,
                    depth: 1,
                });
            }
            let item = infer_literal_type(s, f, at + 1)?;
            Some(Ty {
                base: item.base,
                depth: item.depth + 1,
            })
        }
        _ => None,
    }
}

// Whether an inferred type passes for every declared one: Any, Null, Unknown.
fn is_loose(inferred: u8) -> bool
    ensures { result ≡ loose inferred }
{
    matches!(
        inferred,
        inferred_types::ANY | inferred_types::NULL | inferred_types::UNKNOWN
    )
}

// Whether a declared type takes every inferred one: Enum, Opaque, Any.
fn is_wide(declared: u8) -> bool
    ensures { result ≡ wide (Kind.FirstType + declared) }
{
    matches!(declared, declared_types::ENUM..=declared_types::ANY)
}

// Whether an inferred type passes for a declared one, neither of them a list. Past the table's rows or columns no
// type has its number, and the other side alone decides.
fn bases_compatible(inferred: u8, declared: u8) -> bool
    ensures { result ≡ compatible inferred (Kind.FirstType + declared) }
{
    if inferred_types::UNKNOWN < inferred {
        return is_wide(declared);
    }
    if declared_types::ANY < declared {
        return is_loose(inferred);
    }
    let entry = COLUMNS * (inferred as usize) + (declared as usize);
    COMPATIBLE[entry] == b'1'
}

// Whether an inferred type passes for a declared one. Lists are stripped from both while both are lists. If a list is
// left on one side, the other side alone decides.
pub fn types_compatible(inferred: Ty, declared: Ty) -> bool
    ensures { result ≡ types_compatible inferred declared }
{
    let inferred_lists = inferred.depth;
    let declared_lists = declared.depth;
    if declared_lists < inferred_lists {
        return is_wide(declared.base);
    }
    if inferred_lists < declared_lists {
        return is_loose(inferred.base);
    }
    bases_compatible(inferred.base, declared.base)
}
