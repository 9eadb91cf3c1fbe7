// The names of a statement, put into a text as they stand in the sheet.
ghost use Rattle.std.specs.Prelude.{◌++◌, ◌+◌, ◌≤◌, ◌<◌, eqb, length};
ghost use Rattle.rules.specs.Kinds as Kind;
ghost use Rattle.lists.specs.Lists.{pick};
ghost use Rattle.frame.specs.Inner.{max_bytes, Sound};
ghost use Rattle.frame.specs.Doc.{doc_of};
ghost use Rattle.grammar.specs.Tree.{tree_of, texts};
ghost use Rattle.grammar.specs.Inner.{NameAt};
ghost use Rattle.marks.specs.Marks.{NamesAt};
ghost use Rattle.phrase.specs.Phrase.{colons, on_names};
ghost use Rattle.phrase.specs.Inner.{Put, ElementAt};
ghost use Rattle.text.specs.Text.{bytes};

use frame::Sheet;
use rules::kinds;

// The name at token i.
pub fn put_name(s: &[u8], f: Sheet, i: u32, at: usize, text: &mut [u8]) -> usize
    requires sound { Sound s.now f }
    requires name_at { NameAt (doc_of s.now) i }
    requires at_bound { at < 1000000000000 }
    ensures { Put ((tree_of (doc_of s.now)).text i) at text.old result text.new × (result ≤ at + max_bytes) }
{
    crate::put(grammar::text_of(s, f, i), at, text)
}

// A colon and the name at token i.
fn put_colon(s: &[u8], f: Sheet, i: u32, at: usize, text: &mut [u8]) -> usize
    requires sound { Sound s.now f }
    requires name_at { NameAt (doc_of s.now) i }
    requires at_bound { at < 900000000000 }
    ensures { Put (bytes ":" ++ (tree_of (doc_of s.now)).text i) at text.old result text.new × (result ≤ at + (max_bytes + 1)) }
{
    crate::put_both(b":", grammar::text_of(s, f, i), at, text)
}

// The names from token `from` on, each behind a colon, with something between two of them.
pub fn put_colons(
    s: &[u8],
    f: Sheet,
    from: u32,
    many: u32,
    between: &[u8],
    at: usize,
    text: &mut [u8],
) -> usize
    requires sound { Sound s.now f }
    requires names_at { NamesAt (doc_of s.now) from many }
    requires between_len_bound { length between.now ≤ 2 }
    requires at_bound { at < 500000000000 }
    ensures { Put (colons between.now (texts (tree_of (doc_of s.now)) from many)) at text.old result text.new × (result ≤ at + 300000000) }
{
    if many == 0 {
        return at;
    }
    let mut end = put_colon(s, f, from, at, text);
    for k in 1..many {
        let mid = crate::put(between, end, text);
        end = put_colon(s, f, from + k, mid, text);
    }
    end
}

// What the names of an element are: labels of a Node, relationship types of a Rel.
fn put_sort(kind: u8, at: usize, text: &mut [u8]) -> usize
    requires { at < 900000000000 }
    ensures { Put (pick (eqb kind Kind.Node) (bytes "label(s) ") (bytes "relationship type(s) ")) at text.old result text.new × (result ≤ at + 21) }
{
    if kind == kinds::NODE {
        return crate::put(b"label(s) ", at, text);
    }
    crate::put(b"relationship type(s) ", at, text)
}

// The names of the element i.
pub fn put_on_names(s: &[u8], f: Sheet, i: u32, at: usize, text: &mut [u8]) -> usize
    requires sound { Sound s.now f }
    requires element_at { ElementAt (doc_of s.now) i }
    requires at_bound { at < 400000000000 }
    ensures { Put (on_names (tree_of (doc_of s.now)) i) at text.old result text.new × (result ≤ at + 300000021) }
{
    let end = put_sort(frame::kind(s, f, i), at, text);
    put_colons(s, f, i + 3, frame::value(s, f, i) / 2, b", ", end, text)
}
