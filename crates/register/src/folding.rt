// Functions in any case: by the number of each name the first function of that name, with A to Z as a to z. A name that
// is not marked has its own already, and the others are looked for among the functions whose names are marked too.
ghost use Rattle.std.specs.Prelude.{◌≡◌, false, not, ℕ, ◌+◌, ◌*◌, ◌≤◌, ◌<◌, eqb, length, get_or, Some};
ghost use Rattle.rules.specs.Kinds as Kind;
ghost use Rattle.lists.specs.Lists.{both, first};
ghost use Rattle.text.specs.Folded.{same_folded};
ghost use Rattle.frame.specs.Limits.{max_names, max_tokens};
ghost use Rattle.frame.specs.Doc.{doc_of, kind_of};
ghost use Rattle.frame.specs.Inner.{Sound};
ghost use Rattle.grammar.specs.Tree.{tree_of};
ghost use Rattle.schema.specs.Declarations.{name_below};
ghost use Rattle.schema.specs.Inner.{Declared};
ghost use Rattle.numbers.specs.Least.{all_names, texts_of, text_at};
ghost use Rattle.numbers.specs.Alike.{Marked};
ghost use Rattle.register.specs.Register.{entry_at, aparts_at, entry_of, Registered};
ghost use Rattle.register.specs.Inner.{Folding, NoneMarked, is_sought, Seeking, sought_by_name};

use frame::{Sheet, Sizes};
use in_order::Entry;
use rules::kinds;

// Room for as many functions as a schema can have, and for those of one with few tokens.
const ROOM: usize = Sheet::MAX_TOKENS as usize;

const FEW_ROOM: usize = crate::FEW_TOKENS as usize;

// Whether number y is marked, and has a Function of its exact text.
fn is_function(register: &[u32], marks: &[bool], sizes: Sizes, y: u32) -> bool
    requires names_in_bounds { aparts_at (all_names sizes) ≤ length register.now }
    requires names_in_bounds_2 { all_names sizes ≤ length marks.now }
    requires y_lt_names { y < all_names sizes }
    ensures { result ≡ both (get_or marks.now y false) (not (eqb (get_or register.now (entry_at (all_names sizes) y Kind.Function) 0) 0)) }
{
    marks[crate::place(y)] && register[crate::entry_at(sizes, y, kinds::FUNCTION)] != 0
}

// Whether one of the names' numbers is so. Where none is, each name has the Function of its exact text, or none.
fn any_function(register: &[u32], marks: &[bool], sizes: Sizes) -> bool
    requires names_in_bounds { aparts_at (all_names sizes) ≤ length register.now }
    requires names_in_bounds_2 { all_names sizes ≤ length marks.now }
    requires names_bound { all_names sizes ≤ 2 * max_names }
    ensures { result ≡ false → NoneMarked (all_names sizes) marks.now register.now (all_names sizes) }
{
    for x in 0..sizes.schema.names + sizes.statement.names {
        if is_function(register, marks, sizes, x) {
            return true;
        }
    }
    false
}

// Whether the function at token j is sought: its name is marked, and it is the first of that exact name. So no text is
// listed twice, however often it is declared.
fn is_sought(s: &[u8], d: &[u8], sizes: Sizes, register: &[u32], marks: &[bool], j: u32) -> bool
    requires folding { Folding s.now d.now sizes 0 register.now }
    requires sizes_in_bounds { all_names sizes ≤ length marks.now }
    requires j_lt_tokens { j < sizes.schema.tokens }
    requires j_value { kind_of (doc_of d.now) j ≡ Kind.Function }
    ensures { result ≡ is_sought s.now d.now sizes marks.now j }
{
    let name = crate::place(frame::value(d, sizes.schema, j + 1));
    let number = register[name];
    marks[crate::place(number)]
        && register[crate::entry_at(sizes, number, kinds::FUNCTION)] == j + 1
}

// Writes token j behind those before it, where it is a function that is sought: how many there are then.
fn list_one(
    s: &[u8],
    d: &[u8],
    sizes: Sizes,
    register: &[u32],
    marks: &[bool],
    j: u32,
    many: usize,
    list: &mut [u32],
) -> usize
    requires folding { Folding s.now d.now sizes 0 register.now }
    requires sizes_in_bounds { all_names sizes ≤ length marks.now }
    requires j_lt_tokens { j < sizes.schema.tokens }
    requires tokens_in_bounds { sizes.schema.tokens ≤ length list.old }
    requires seeking { Seeking s.now d.now sizes marks.now j many list.old }
    ensures { Seeking s.now d.now sizes marks.now (j + 1) result list.new }
{
    if frame::kind(d, sizes.schema, j) != kinds::FUNCTION {
        return many;
    }
    if !is_sought(s, d, sizes, register, marks, j) {
        return many;
    }
    list[many] = j;
    many + 1
}

// Lists the functions that are sought, as they stand: how many there are.
fn list_sought(
    s: &[u8],
    d: &[u8],
    sizes: Sizes,
    register: &[u32],
    marks: &[bool],
    list: &mut [u32],
) -> usize
    requires folding { Folding s.now d.now sizes 0 register.now }
    requires sizes_in_bounds { all_names sizes ≤ length marks.now }
    requires tokens_in_bounds { sizes.schema.tokens ≤ length list.old }
    ensures { Seeking s.now d.now sizes marks.now sizes.schema.tokens result list.new }
{
    let tokens = sizes.schema.tokens;
    let mut many: usize = 0;
    for j in 0..tokens {
        many = list_one(s, d, sizes, register, marks, j, many, list);
    }
    many
}

// The first of the functions that has name x of the two sheets.
fn function_of(
    s: &[u8],
    d: &[u8],
    sizes: Sizes,
    functions: &[u32],
    marks: &[bool],
    x: u32,
) -> Option<u32>
    requires declared { Declared d.now sizes.schema }
    requires sound { Sound s.now sizes.statement }
    requires functions_value { functions.now ≡ sought_by_name s.now d.now sizes marks.now }
    requires x_bound { x < all_names sizes }
    ensures { result ≡ first (λ i. same_folded (text_at (texts_of d.now s.now) x) (name_below (tree_of (doc_of d.now)) i)) functions.now }
{
    if x < sizes.schema.names {
        let first = frame::name(d, sizes.schema, x);
        return functions::find(d, sizes.schema, functions, first);
    }
    let second = frame::name(s, sizes.statement, x - sizes.schema.names);
    functions::find(d, sizes.schema, functions, second)
}

// What a token found is as an entry.
fn entry(found: Option<u32>) -> u32
    requires { (j : ℕ) → found ≡ Some j → j < max_tokens }
    ensures { result ≡ entry_of found }
{
    found.map_or(0, |j| j + 1)
}

// The entry of name x.
fn fold_name(
    s: &[u8],
    d: &[u8],
    sizes: Sizes,
    functions: &[u32],
    marks: &[bool],
    x: u32,
    register: &mut [u32],
)
    requires folding { Folding s.now d.now sizes x register.old }
    requires functions_value { functions.now ≡ sought_by_name s.now d.now sizes marks.now }
    requires marked { Marked (texts_of d.now s.now) (all_names sizes) marks.now }
    requires sizes_in_bounds { all_names sizes ≤ length marks.now }
    requires x_bound { x < all_names sizes }
    ensures { Folding s.now d.now sizes (x + 1) register.new }
{
    if !marks[crate::place(x)] {
        return;
    }
    let found = function_of(s, d, sizes, functions, marks, x);
    let at = crate::entry_at(sizes, x, kinds::FUNCTION);
    register[at] = entry(found);
}

// The entries of all names that are marked.
fn fold_names(
    s: &[u8],
    d: &[u8],
    sizes: Sizes,
    functions: &[u32],
    marks: &[bool],
    register: &mut [u32],
)
    requires folding { Folding s.now d.now sizes 0 register.old }
    requires functions_value { functions.now ≡ sought_by_name s.now d.now sizes marks.now }
    requires marked { Marked (texts_of d.now s.now) (all_names sizes) marks.now }
    requires sizes_in_bounds { all_names sizes ≤ length marks.now }
    ensures { Registered s.now d.now sizes register.new }
{
    let names = sizes.schema.names + sizes.statement.names;
    for x in 0..names {
        fold_name(s, d, sizes, functions, marks, x, register);
    }
}

// The same with room for N functions that are sought, which are sorted by name before.
fn fold_with<const N: usize>(s: &[u8], d: &[u8], sizes: Sizes, marks: &[bool], register: &mut [u32])
    requires folding { Folding s.now d.now sizes 0 register.old }
    requires marked { Marked (texts_of d.now s.now) (all_names sizes) marks.now }
    requires sizes_in_bounds { all_names sizes ≤ length marks.now }
    requires tokens_in_bounds { sizes.schema.tokens ≤ N }
    requires room_bound { N ≤ max_tokens }
    ensures { Registered s.now d.now sizes register.new }
{
    let mut room = [0; N];
    let many = list_sought(s, d, sizes, register, marks, &mut room);
    in_order::sort(d, sizes.schema, Entry::Function, &mut room[..many]);
    fold_names(s, d, sizes, &room[..many], marks, register);
}

// Enters the functions of all names in any case, where they are entered by exact name.
pub fn fold_functions(s: &[u8], d: &[u8], sizes: Sizes, marks: &[bool], register: &mut [u32])
    requires folding { Folding s.now d.now sizes 0 register.old }
    requires marked { Marked (texts_of d.now s.now) (all_names sizes) marks.now }
    requires sizes_in_bounds { all_names sizes ≤ length marks.now }
    ensures { Registered s.now d.now sizes register.new }
{
    if !any_function(register, marks, sizes) {
        return;
    }
    if sizes.schema.tokens <= crate::FEW_TOKENS {
        fold_with::<FEW_ROOM>(s, d, sizes, marks, register);
    } else {
        fold_with::<ROOM>(s, d, sizes, marks, register);
    }
}
