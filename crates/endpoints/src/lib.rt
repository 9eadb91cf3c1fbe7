// The pairs of starts and ends of a relationship type.
#![tactic(auto)]

ghost use Rattle.std.specs.Prelude.{◌≡◌, ◌+◌, ◌/◌, ◌≤◌, ◌<◌, length, Some};
ghost use Rattle.rules.specs.Kinds as Kind;
ghost use Rattle.lists.specs.Lists.{over, each};
ghost use Rattle.frame.specs.Doc.{doc_of, kind_of};
ghost use Rattle.grammar.specs.Tree.{tree_of};
ghost use Rattle.schema.specs.Declarations.{of_kind};
ghost use Rattle.schema.specs.Inner.{Declared};
ghost use Rattle.schema.specs.Effect.{Done, fitted};
ghost use Rattle.of_kind.specs.Written.{WroteNumbers};
ghost use Rattle.endpoints.specs.Pairs.{endpoints_at, endpoints_of};
ghost use Rattle.endpoints.specs.Inner.{pair_of, pairs_over};

use frame::Sheet;
use rules::kinds;
use schema::Answer;

// Writes the pair of a start with token j, where that is an End.
fn write_pair(s: &[u8], f: Sheet, start: u32, j: u32, n: usize, out: &mut [u32]) -> usize
    requires declared { Declared s.now f }
    requires j_lt_tokens { j < f.tokens }
    requires j_in_bounds { n + length (each (pair_of (doc_of s.now) start) (of_kind (tree_of (doc_of s.now)) Kind.End j)) ≤ length out.old }
    ensures { WroteNumbers n (each (pair_of (doc_of s.now) start) (of_kind (tree_of (doc_of s.now)) Kind.End j)) out.old result out.new }
{
    if frame::kind(s, f, j) != kinds::END {
        return n;
    }
    out[n] = start;
    out[n + 1] = frame::value(s, f, j + 1);
    n + 2
}

// The pairs of a start with each End from one token up to another.
fn write_ends(
    s: &[u8],
    f: Sheet,
    start: u32,
    from: u32,
    to: u32,
    at: usize,
    out: &mut [u32],
) -> usize
    requires declared { Declared s.now f }
    requires from_le_to { (from ≤ to) × (to ≤ f.tokens) }
    requires to_in_bounds { at + length (each (pair_of (doc_of s.now) start) (over (of_kind (tree_of (doc_of s.now)) Kind.End) from to)) ≤ length out.old }
    ensures { WroteNumbers at (each (pair_of (doc_of s.now) start) (over (of_kind (tree_of (doc_of s.now)) Kind.End) from to)) out.old result out.new }
{
    let mut n = at;
    for j in from..to {
        n = write_pair(s, f, start, j, n, out);
    }
    n
}

// The same for token j, where that is a Start.
fn write_start(s: &[u8], f: Sheet, j: u32, from: u32, to: u32, n: usize, out: &mut [u32]) -> usize
    requires declared { Declared s.now f }
    requires from_le_to { (from ≤ to) × (to ≤ f.tokens) }
    requires j_lt_tokens { j < f.tokens }
    requires j_in_bounds { n + length (each (pairs_over (doc_of s.now) from to) (of_kind (tree_of (doc_of s.now)) Kind.Start j)) ≤ length out.old }
    ensures { WroteNumbers n (each (pairs_over (doc_of s.now) from to) (of_kind (tree_of (doc_of s.now)) Kind.Start j)) out.old result out.new }
{
    if frame::kind(s, f, j) != kinds::START {
        return n;
    }
    let start = frame::value(s, f, j + 1);
    write_ends(s, f, start, from, to, n, out)
}

// The pairs of each Start with each End, from one token up to another.
fn write_pairs(s: &[u8], f: Sheet, from: u32, to: u32, out: &mut [u32]) -> usize
    requires declared { Declared s.now f }
    requires from_le_to { (from ≤ to) × (to ≤ f.tokens) }
    requires to_in_bounds { length (each (pairs_over (doc_of s.now) from to) (over (of_kind (tree_of (doc_of s.now)) Kind.Start) from to)) ≤ length out.old }
    ensures { WroteNumbers 0 (each (pairs_over (doc_of s.now) from to) (over (of_kind (tree_of (doc_of s.now)) Kind.Start) from to)) out.old result out.new }
{
    let mut n: usize = 0;
    for j in from..to {
        n = write_start(s, f, j, from, to, n, out);
    }
    n
}

// The endpoints of the relationship type at token i: counted first, by a product, so that a list that is too short
// stays as it came.
fn fit_pairs(s: &[u8], f: Sheet, i: u32, out: &mut [u32]) -> Answer
    requires declared { Declared s.now f }
    requires i_lt_tokens { i < f.tokens }
    requires i_value { kind_of (doc_of s.now) i ≡ Kind.RelType }
    ensures { Done (fitted (length (endpoints_at (doc_of s.now) (Some i)) / 2) (endpoints_at (doc_of s.now) (Some i)) out.old) out.old result out.new }
{
    let end = provider::decl_end(s, f, i);
    let starts = of_kind::count_of(s, f, i + 1, end, kinds::START);
    let ends = of_kind::count_of(s, f, i + 1, end, kinds::END);
    let pairs = starts * ends;
    if out.len() / 2 < pairs as usize {
        return schema::refused(16, 0, 0);
    }
    write_pairs(s, f, i + 1, end, out);
    Ok(pairs)
}

// The endpoints of the relationship type of a name, if there is one.
pub fn fit_endpoints(s: &[u8], f: Sheet, rel_type: &[u8], out: &mut [u32]) -> Answer
    requires { Declared s.now f }
    ensures { Done (fitted (length (endpoints_of (doc_of s.now) rel_type.now) / 2) (endpoints_of (doc_of s.now) rel_type.now) out.old) out.old result out.new }
{
    let Some(i) = schema::find_named(s, f, 0, f.tokens, kinds::REL_TYPE, rel_type) else {
        return Ok(0);
    };
    fit_pairs(s, f, i, out)
}
