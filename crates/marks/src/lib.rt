// Names of a statement and a schema that are marked, each at its number.
#![tactic(auto)]

ghost use Rattle.std.specs.Prelude.{◌≡◌, ◌+◌, ◌≤◌, length, set};
ghost use Rattle.frame.specs.Doc.{doc_of};
ghost use Rattle.grammar.specs.Tree.{tree_of, texts};
ghost use Rattle.grammar.specs.Inner.{NameAt};
ghost use Rattle.numbers.specs.Least.{all_names, texts_of};
ghost use Rattle.register.specs.Register.{Registered, number_of, number_in};
ghost use Rattle.marks.specs.Marks.{NamesAt, marked, is_marked};

use frame::Sizes;
use std::mem;

// Whether the schema's Name at token i is marked.
pub fn is_marked(s: &[u8], d: &[u8], sizes: Sizes, register: &[u32], i: u32, marks: &[u8]) -> bool
    requires registered { Registered s.now d.now sizes register.now }
    requires name_at { NameAt (doc_of d.now) i }
    requires sizes_in_bounds { all_names sizes ≤ length marks.now }
    ensures { result ≡ is_marked marks.now (number_in s.now d.now i) }
{
    let at = register::number_in(s, d, sizes, register, i) as usize;
    marks[at] == 1
}

// Marks the statement's Name at token i: whether it was marked before.
pub fn mark(s: &[u8], d: &[u8], sizes: Sizes, register: &[u32], i: u32, marks: &mut [u8]) -> bool
    requires registered { Registered s.now d.now sizes register.now }
    requires name_at { NameAt (doc_of s.now) i }
    requires sizes_in_bounds { all_names sizes ≤ length marks.old }
    ensures value { result ≡ is_marked marks.old (number_of s.now d.now i) }
    ensures marks_after { marks.new ≡ set marks.old (number_of s.now d.now i) 1 }
{
    let at = register::number_of(s, d, sizes, register, i) as usize;
    mem::replace(&mut marks[at], 1) == 1
}

// Marks the statement's n Names from token `at` on.
pub fn mark_names(
    s: &[u8],
    d: &[u8],
    sizes: Sizes,
    register: &[u32],
    at: u32,
    n: u32,
    marks: &mut [u8],
)
    requires registered { Registered s.now d.now sizes register.now }
    requires names_at { NamesAt (doc_of s.now) at n }
    requires sizes_in_bounds { all_names sizes ≤ length marks.old }
    ensures { marks.new ≡ marked (texts_of d.now s.now) (texts (tree_of (doc_of s.now)) at n) marks.old }
{
    for i in 0..n {
        mark(s, d, sizes, register, at + i, marks);
    }
}
