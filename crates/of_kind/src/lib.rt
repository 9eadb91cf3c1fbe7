// The tokens of a kind: how many there are, and all of them in a list.
#![tactic(auto)]

ghost use Rattle.std.specs.Prelude.{◌≡◌, ◌≤◌, length};
ghost use Rattle.lists.specs.Lists.{over};
ghost use Rattle.frame.specs.Limits.{max_tokens};
ghost use Rattle.frame.specs.Doc.{doc_of};
ghost use Rattle.frame.specs.Inner.{Sound};
ghost use Rattle.grammar.specs.Tree.{tree_of};
ghost use Rattle.schema.specs.Declarations.{of_kind, decls_of};
ghost use Rattle.schema.specs.Inner.{Declared, Declaring};
ghost use Rattle.of_kind.specs.Written.{WroteNumbers};

use frame::Sheet;

// Room for all tokens of a kind.
pub const ROOM: usize = Sheet::MAX_TOKENS as usize;

// How many tokens of a kind stand from one token up to another.
pub fn count_of(s: &[u8], f: Sheet, from: u32, to: u32, kind: u8) -> u32
    requires sound { Sound s.now f }
    requires to_le_tokens { to ≤ f.tokens }
    ensures { result ≡ length (over (of_kind (tree_of (doc_of s.now)) kind) from to) }
{
    let mut many: u32 = 0;
    for j in from..to {
        if frame::kind(s, f, j) == kind {
            many += 1;
        }
    }
    many
}

// Writes all declarations of a kind, in turn: the place after them is how many there are.
pub fn list_of(s: &[u8], f: Sheet, kind: u8, list: &mut [u32]) -> usize
    requires declared { Declared s.now f }
    requires declaring { Declaring kind }
    requires max_tokens_in_bounds { max_tokens ≤ length list.old }
    ensures { WroteNumbers 0 (decls_of (tree_of (doc_of s.now)) kind) list.old result list.new }
{
    let mut n: usize = 0;
    for token in 0..f.tokens {
        if frame::kind(s, f, token) == kind {
            list[n] = token;
            n += 1;
        }
    }
    n
}
