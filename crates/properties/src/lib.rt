// The properties of an element's names, entered once by the numbers of their keys, so that each key is found by one
// read.
#![tactic(auto)]

ghost use Rattle.std.specs.Prelude.{◌≡◌, ◌+◌, ◌*◌, ◌≤◌, ◌<◌, length, set};
ghost use Rattle.rules.specs.Kinds as Kind;
ghost use Rattle.lists.specs.Lists.{pick, over};
ghost use Rattle.frame.specs.Limits.{max_names};
ghost use Rattle.frame.specs.Doc.{doc_of, kind_of};
ghost use Rattle.grammar.specs.Tree.{tree_of};
ghost use Rattle.grammar.specs.Inner.{NameAt};
ghost use Rattle.schema.specs.Declarations.{of_kind};
ghost use Rattle.schema.specs.Inner.{Owning};
ghost use Rattle.numbers.specs.Least.{all_names, texts_of};
ghost use Rattle.register.specs.Register.{Registered, number_of};
ghost use Rattle.provider.specs.Schema.{property_of};
ghost use Rattle.provider.specs.Inner.{property_found};
ghost use Rattle.breach.specs.Breach.{names_of, owners, statement_in, schema_in};
ghost use Rattle.marks.specs.Marks.{is_marked};
ghost use Rattle.properties.specs.Entering.{entered_at, owner_kind, PropertiesOf, Element, Clear, entered_in, entered_for};

use frame::Sizes;
use rules::kinds;
use types::Ty;

// The kind of the declarations of an element's names: a Node's are Labels, a Rel's RelTypes. It serves the crates
// above as well.
pub fn owner_kind(kind: u8) -> u8
    ensures { result ≡ owner_kind kind }
{
    if kind == kinds::NODE {
        kinds::LABEL
    } else {
        kinds::REL_TYPE
    }
}

// Enters the property at token j, where nothing is entered at its key's number.
fn enter_property(s: &[u8], d: &[u8], sizes: Sizes, register: &[u32], j: u32, entered: &mut [u32])
    requires registered { Registered s.now d.now sizes register.now }
    requires j_lt_tokens { j < sizes.schema.tokens }
    requires j_value { kind_of (doc_of d.now) j ≡ Kind.Property }
    requires sizes_in_bounds { all_names sizes ≤ length entered.old }
    ensures { entered.new ≡ entered_at (texts_of d.now s.now) (tree_of (doc_of d.now)) j entered.old }
{
    let at = register::number_in(s, d, sizes, register, j + 1) as usize;
    if entered[at] != 0 {
        return;
    }
    entered[at] = j + 1;
}

// Token j, where it is a property.
fn enter_item(s: &[u8], d: &[u8], sizes: Sizes, register: &[u32], j: u32, entered: &mut [u32])
    requires registered { Registered s.now d.now sizes register.now }
    requires j_lt_tokens { j < sizes.schema.tokens }
    requires sizes_in_bounds { all_names sizes ≤ length entered.old }
    ensures { entered.new ≡ entered_in s.now d.now (of_kind (tree_of (doc_of d.now)) Kind.Property j) entered.old }
{
    if frame::kind(d, sizes.schema, j) != kinds::PROPERTY {
        return;
    }
    enter_property(s, d, sizes, register, j, entered);
}

// The properties from one token up to another.
fn enter_items(
    s: &[u8],
    d: &[u8],
    sizes: Sizes,
    register: &[u32],
    from: u32,
    to: u32,
    entered: &mut [u32],
)
    requires registered { Registered s.now d.now sizes register.now }
    requires from_le_to { (from ≤ to) × (to ≤ sizes.schema.tokens) }
    requires sizes_in_bounds { all_names sizes ≤ length entered.old }
    ensures { entered.new ≡ entered_in s.now d.now (over (of_kind (tree_of (doc_of d.now)) Kind.Property) from to) entered.old }
{
    for j in from..to {
        enter_item(s, d, sizes, register, j, entered);
    }
}

// The properties of the declaration of a kind whose name is the statement's Name at token i.
fn enter_declared(
    s: &[u8],
    d: &[u8],
    sizes: Sizes,
    register: &[u32],
    kind: u8,
    i: u32,
    entered: &mut [u32],
)
    requires registered { Registered s.now d.now sizes register.now }
    requires owning { Owning kind }
    requires name_at { NameAt (doc_of s.now) i }
    requires sizes_in_bounds { all_names sizes ≤ length entered.old }
    ensures { entered.new ≡ entered_for s.now d.now sizes kind i entered.old }
{
    let Some(j) = register::declared(s, d, sizes, register, kind, i) else {
        return;
    };
    let end = provider::decl_end(d, sizes.schema, j);
    enter_items(s, d, sizes, register, j + 1, end, entered);
}

// The same, unless the name was met before, which `done` marks.
fn enter_name(
    s: &[u8],
    d: &[u8],
    sizes: Sizes,
    register: &[u32],
    kind: u8,
    i: u32,
    entered: &mut [u32],
    done: &mut [u8],
)
    requires registered { Registered s.now d.now sizes register.now }
    requires owning { Owning kind }
    requires name_at { NameAt (doc_of s.now) i }
    requires sizes_in_bounds { all_names sizes ≤ length entered.old }
    requires sizes_in_bounds_2 { all_names sizes ≤ length done.old }
    ensures entered_after { entered.new ≡ pick (is_marked done.old (number_of s.now d.now i)) entered.old (entered_for s.now d.now sizes kind i entered.old) }
    ensures done_after { done.new ≡ set done.old (number_of s.now d.now i) 1 }
{
    if marks::mark(s, d, sizes, register, i, done) {
        return;
    }
    enter_declared(s, d, sizes, register, kind, i, entered);
}

// The properties of all names of the element i, into a list that has 0 in each place, with room for N marks of names.
fn enter_marked<const N: usize>(
    s: &[u8],
    d: &[u8],
    sizes: Sizes,
    register: &[u32],
    i: u32,
    entered: &mut [u32],
)
    requires element { Element s.now d.now sizes register.now i }
    requires clear { Clear (all_names sizes) entered.old }
    requires sizes_in_bounds { all_names sizes ≤ N }
    requires room_bound { N ≤ 2 * max_names }
    ensures { PropertiesOf s.now d.now sizes i entered.new }
{
    let mut done = [0; N];
    let kind = owner_kind(frame::kind(s, sizes.statement, i));
    let many = frame::value(s, sizes.statement, i) / 2;
    for k in 0..many {
        enter_name(s, d, sizes, register, kind, i + 3 + k, entered, &mut done);
    }
}

// The same with a short list of marks where there are few names, since all of it is cleared.
pub fn enter_names(s: &[u8], d: &[u8], sizes: Sizes, register: &[u32], i: u32, entered: &mut [u32])
    requires element { Element s.now d.now sizes register.now i }
    requires clear { Clear (all_names sizes) entered.old }
    ensures { PropertiesOf s.now d.now sizes i entered.new }
{
    if sizes.schema.names + sizes.statement.names <= register::FEW_NAMES {
        enter_marked::<{ register::FEW_MARKS }>(s, d, sizes, register, i, entered);
    } else {
        enter_marked::<{ register::ALL_NAMES }>(s, d, sizes, register, i, entered);
    }
}

// The declaration of the key at the statement's token `key`: the first one in the first of the names of the element i
// that has one.
pub fn property_found(
    s: &[u8],
    d: &[u8],
    sizes: Sizes,
    register: &[u32],
    i: u32,
    key: u32,
    entered: &[u32],
) -> Option<Ty>
    requires element { Element s.now d.now sizes register.now i }
    requires name_at { NameAt (doc_of s.now) key }
    requires properties_of { PropertiesOf s.now d.now sizes i entered.now }
    ensures { result ≡ property_found (property_of (owners (schema_in d.now) ((statement_in s.now).kind i)) (names_of (statement_in s.now) i) ((statement_in s.now).text key)) }
{
    let entry = entered[register::number_of(s, d, sizes, register, key) as usize];
    if entry == 0 {
        return None;
    }
    Some(provider::type_at(d, sizes.schema, entry + 1))
}
