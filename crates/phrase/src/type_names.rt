// The names of types. A list is just List.
ghost use Rattle.std.specs.Prelude.{[], ◌+◌, ◌≤◌, ◌<◌, get_or, eqb, map};
ghost use Rattle.lists.specs.Lists.{pick};
ghost use Rattle.types.specs.Types.{type_name, property_type_name};
ghost use Rattle.phrase.specs.Inner.{Put};
ghost use Rattle.text.specs.Text.{bytes};

use types::Ty;

// The names of the inferred types, by their numbers.
const INFERRED: [&str; 15] = [
    "Any",
    "Null",
    "Bool",
    "Int",
    "Float",
    "String",
    "Num",
    "Date",
    "Datetime",
    "Map",
    "Node",
    "Relationship",
    "Path",
    "Union",
    "Unknown",
];

// The names of the declared types, by their numbers.
const DECLARED: [&str; 9] = [
    "String", "Int", "Float", "Bool", "Date", "Datetime", "Enum", "Opaque", "Any",
];

// The name of a type by the names of its sort: nothing where its number is none of theirs.
fn put_among(names: &[&str], y: Ty, at: usize, text: &mut [u8]) -> usize
    requires at_bound { at < 900000000000 }
    ensures { Put (pick (eqb y.depth 0) (get_or (map (λ n. n.now) names.now) y.base []) (bytes "List")) at text.old result text.new }
{
    if y.depth != 0 {
        return crate::put(b"List", at, text);
    }
    match names.get(y.base as usize) {
        Some(name) => crate::put(name.as_bytes(), at, text),
        None => at,
    }
}

// The name of an inferred type.
pub fn put_type_name(y: Ty, at: usize, text: &mut [u8]) -> usize
    requires { at < 900000000000 }
    ensures { Put (bytes (type_name y)) at text.old result text.new × (result ≤ at + 12) }
{
    put_among(&INFERRED, y, at, text)
}

// The name of a declared type.
pub fn put_property_type_name(y: Ty, at: usize, text: &mut [u8]) -> usize
    requires { at < 900000000000 }
    ensures { Put (bytes (property_type_name y)) at text.old result text.new × (result ≤ at + 12) }
{
    put_among(&DECLARED, y, at, text)
}
