// What a call knows of the names of a schema and a statement: a number for each, which equal texts alone share, by
// number the first declaration of that name, Functions in any case of its letters, and the Aparts.
#![tactic(auto)]

ghost use Rattle.std.specs.Prelude.{◌≡◌, true, ℕ, ◌+◌, ◌*◌, ◌≤◌, ◌<◌, length, get_or};
ghost use Rattle.rules.specs.Kinds as Kind;
ghost use Rattle.frame.specs.Limits.{max_names};
ghost use Rattle.frame.specs.Doc.{doc_of, kind_of};
ghost use Rattle.frame.specs.Inner.{Sound};
ghost use Rattle.grammar.specs.Tree.{tree_of};
ghost use Rattle.grammar.specs.Inner.{NameAt};
ghost use Rattle.schema.specs.Scanned.{tokens_of, repeats};
ghost use Rattle.schema.specs.Inner.{Declared, first_named, first_function};
ghost use Rattle.numbers.specs.Least.{all_names};
ghost use Rattle.register.specs.Register.{Entered, Exact, entry_at, aparts_at, few_room, Registered, number_of, number_in};
ghost use Rattle.register.specs.Inner.{entry_found, Registering, Folding};

use frame::{Sheet, Sizes};
use rules::kinds;

mod folding;

// Kinds of declarations that are found by name, from Label to Procedure.
const KINDS: usize = 5;

// Room for the names of two sheets.
pub const ALL_NAMES: usize = 2 * (Sheet::MAX_NAMES as usize);

// Room for them, their entries, and the Aparts.
pub const ROOM: usize = (1 + KINDS) * ALL_NAMES + (Sheet::MAX_TOKENS as usize) + 1;

// Room for a short list, which serves two sheets with few names and a schema with few tokens.
pub const FEW_NAMES: u32 = 256;

// As many marks of names.
pub const FEW_MARKS: usize = FEW_NAMES as usize;

// So few tokens a schema has then.
const FEW_TOKENS: u32 = 1024;

pub const FEW_ROOM: usize = (1 + KINDS) * (FEW_NAMES as usize) + (FEW_TOKENS as usize) + 1;

fn place(i: u32) -> usize
    ensures { result ≡ i }
{
    i as usize
}

// How many names both sheets have.
fn all_names(sizes: Sizes) -> usize
    ensures { result ≡ all_names sizes }
{
    place(sizes.schema.names) + place(sizes.statement.names)
}

// Where the entry of a number and a kind stands.
fn entry_at(sizes: Sizes, number: u32, kind: u8) -> usize
    requires { Kind.Label ≤ kind }
    ensures { result ≡ entry_at (all_names sizes) number kind }
{
    all_names(sizes) + KINDS * place(number) + ((kind - kinds::LABEL) as usize)
}

// Where the Aparts stand.
fn aparts_at(sizes: Sizes) -> usize
    ensures { result ≡ aparts_at (all_names sizes) }
{
    (1 + KINDS) * all_names(sizes)
}

// Token j, where it is the first declaration of its kind with its name's number.
fn enter(s: &[u8], d: &[u8], sizes: Sizes, j: u32, many: usize, register: &mut [u32])
    requires registering { Registering s.now d.now sizes j j many register.old }
    requires j_lt_tokens { j < sizes.schema.tokens }
    ensures { Registering s.now d.now sizes (j + 1) j many register.new }
{
    let kind = frame::kind(d, sizes.schema, j);
    if kind < kinds::LABEL || kinds::PROCEDURE < kind {
        return;
    }
    let name = place(frame::value(d, sizes.schema, j + 1));
    let at = entry_at(sizes, register[name], kind);
    if register[at] != 0 {
        return;
    }
    register[at] = j + 1;
}

// Token j, where it is an Apart.
fn list_apart(s: &[u8], d: &[u8], sizes: Sizes, j: u32, many: usize, register: &mut [u32]) -> usize
    requires registering { Registering s.now d.now sizes (j + 1) j many register.old }
    requires j_lt_tokens { j < sizes.schema.tokens }
    ensures { Registering s.now d.now sizes (j + 1) (j + 1) result register.new }
{
    if frame::kind(d, sizes.schema, j) != kinds::APART {
        return many;
    }
    let at = aparts_at(sizes) + many;
    register[at] = j;
    many + 1
}

// Enters all declarations, and lists the Aparts, of a schema whose names have their numbers.
fn enter_all(s: &[u8], d: &[u8], sizes: Sizes, register: &mut [u32])
    requires { Registering s.now d.now sizes 0 0 0 register.old }
    ensures { Folding s.now d.now sizes 0 register.new }
{
    let tokens = sizes.schema.tokens;
    let mut many: usize = 0;
    for j in 0..tokens {
        enter(s, d, sizes, j, many, register);
        many = list_apart(s, d, sizes, j, many, register);
    }
}

// Fills a list that has 0 in each place, with room for N marks of names.
fn fill_with<const N: usize>(s: &[u8], d: &[u8], sizes: Sizes, register: &mut [u32])
    requires declared { Declared d.now sizes.schema }
    requires sound { Sound s.now sizes.statement }
    requires tokens_in_bounds { aparts_at (all_names sizes) + sizes.schema.tokens < length register.old }
    requires by_index { (i : ℕ) → get_or register.old i 0 ≡ 0 }
    requires sizes_in_bounds { all_names sizes ≤ N }
    requires room_bound { N ≤ 2 * max_names }
    ensures { Registered s.now d.now sizes register.new }
{
    let mut marks = [false; N];
    numbers::number_names(s, d, sizes, register, &mut marks);
    enter_all(s, d, sizes, register);
    folding::fold_functions(s, d, sizes, &marks, register);
}

// Fills a list that has 0 in each place.
pub fn fill(s: &[u8], d: &[u8], sizes: Sizes, register: &mut [u32])
    requires declared { Declared d.now sizes.schema }
    requires sound { Sound s.now sizes.statement }
    requires tokens_in_bounds { aparts_at (all_names sizes) + sizes.schema.tokens < length register.old }
    requires by_index { (i : ℕ) → get_or register.old i 0 ≡ 0 }
    ensures { Registered s.now d.now sizes register.new }
{
    if all_names(sizes) <= FEW_MARKS {
        fill_with::<FEW_MARKS>(s, d, sizes, register);
    } else {
        fill_with::<ALL_NAMES>(s, d, sizes, register);
    }
}

// Whether a short list has room for two sheets. It is cleared sooner than a long one.
pub fn is_short(sizes: Sizes) -> bool
    requires { all_names sizes ≤ 2 * max_names }
    ensures { result ≡ true → aparts_at (all_names sizes) + sizes.schema.tokens < few_room }
{
    sizes.schema.tokens <= FEW_TOKENS && all_names(sizes) <= FEW_MARKS
}

// The number of the statement's Name at token i.
pub fn number_of(s: &[u8], d: &[u8], sizes: Sizes, register: &[u32], i: u32) -> u32
    requires registered { Registered s.now d.now sizes register.now }
    requires name_at { NameAt (doc_of s.now) i }
    ensures { (result ≡ number_of s.now d.now i) × (result < all_names sizes) }
{
    let at = place(sizes.schema.names + frame::value(s, sizes.statement, i));
    register[at]
}

// The number of the schema's Name at token i.
pub fn number_in(s: &[u8], d: &[u8], sizes: Sizes, register: &[u32], i: u32) -> u32
    requires registered { Registered s.now d.now sizes register.now }
    requires name_at { NameAt (doc_of d.now) i }
    ensures { (result ≡ number_in s.now d.now i) × (result < all_names sizes) }
{
    let at = place(frame::value(d, sizes.schema, i));
    register[at]
}

// The token that an entry says, if any.
fn found(e: u32) -> Option<u32>
    ensures { result ≡ entry_found e }
{
    e.checked_sub(1)
}

// What is entered for a kind and the statement's Name at token i.
fn entered(s: &[u8], d: &[u8], sizes: Sizes, register: &[u32], kind: u8, i: u32) -> Option<u32>
    requires registered { Registered s.now d.now sizes register.now }
    requires entered { Entered kind }
    requires name_at { NameAt (doc_of s.now) i }
    ensures { result ≡ entry_found (get_or register.now (entry_at (all_names sizes) (number_of s.now d.now i) kind) 0) }
{
    let number = number_of(s, d, sizes, register, i);
    let at = entry_at(sizes, number, kind);
    found(register[at])
}

// The first declaration of a kind, but for Functions, whose name is the statement's Name at token i.
pub fn declared(s: &[u8], d: &[u8], sizes: Sizes, register: &[u32], kind: u8, i: u32) -> Option<u32>
    requires registered { Registered s.now d.now sizes register.now }
    requires exact { Exact kind }
    requires name_at { NameAt (doc_of s.now) i }
    ensures { result ≡ first_named (tree_of (doc_of d.now)) kind ((tree_of (doc_of s.now)).text i) 0 sizes.schema.tokens }
{
    entered(s, d, sizes, register, kind, i)
}

// The first Function whose name is the statement's Name at token i, with A to Z as a to z.
pub fn function(s: &[u8], d: &[u8], sizes: Sizes, register: &[u32], i: u32) -> Option<u32>
    requires registered { Registered s.now d.now sizes register.now }
    requires name_at { NameAt (doc_of s.now) i }
    ensures { result ≡ first_function (tree_of (doc_of d.now)) ((tree_of (doc_of s.now)).text i) 0 sizes.schema.tokens }
{
    entered(s, d, sizes, register, kinds::FUNCTION, i)
}

// Whether an earlier declaration has the kind and the name of the one at token j, which is no Function.
pub fn is_again(s: &[u8], d: &[u8], sizes: Sizes, register: &[u32], kind: u8, j: u32) -> bool
    requires registered { Registered s.now d.now sizes register.now }
    requires exact { Exact kind }
    requires j_lt_tokens { j < sizes.schema.tokens }
    requires j_value { kind_of (doc_of d.now) j ≡ kind }
    ensures { result ≡ repeats (tree_of (doc_of d.now)) kind j }
{
    let number = number_in(s, d, sizes, register, j + 1);
    let at = entry_at(sizes, number, kind);
    register[at] != j + 1
}

// Apart k of the schema, as its token; 0 where there are no more.
pub fn apart(s: &[u8], d: &[u8], sizes: Sizes, register: &[u32], k: usize) -> u32
    requires registered { Registered s.now d.now sizes register.now }
    requires k_le_tokens { k ≤ sizes.schema.tokens }
    ensures { result ≡ get_or (tokens_of (tree_of (doc_of d.now)) Kind.Apart) k 0 }
{
    let at = aparts_at(sizes) + k;
    register[at]
}
