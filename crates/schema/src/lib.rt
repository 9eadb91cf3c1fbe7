// What operations answer, and a search among the declarations of a schema.
#![tactic(auto)]

ghost use Rattle.std.specs.Prelude.{◌≡◌, ◌≤◌, ◌<◌, eqb};
ghost use Rattle.lists.specs.Lists.{both};
ghost use Rattle.text.specs.Text.{same_text};
ghost use Rattle.frame.specs.Doc.{doc_of};
ghost use Rattle.grammar.specs.Tree.{tree_of};
ghost use Rattle.schema.specs.Declarations.{name_below};
ghost use Rattle.schema.specs.Inner.{Declared, Named, first_named, on_sheet};
ghost use Rattle.schema.specs.Effect.{answer_of, refusal};

use frame::{Fault, Sheet};

// A refusal: its number, the sheet (1 the statement, 2 the schema, 0 neither), the place.
#[derive(Clone, Copy)]
pub struct Refusal {
    pub number: u32,
    pub sheet: u32,
    pub place: u32,
}

// What an operation answers: how many items, bytes, pairs or names it wrote, or a refusal.
pub type Answer = Result<u32, Refusal>;

// Whether token j is of a kind and has a name below it.
fn is_named(s: &[u8], f: Sheet, j: u32, kind: u8, name: &[u8]) -> bool
    requires declared { Declared s.now f }
    requires j_lt_tokens { j < f.tokens }
    requires named { Named kind }
    ensures { result ≡ both (eqb ((tree_of (doc_of s.now)).kind j) kind) (same_text name.now (name_below (tree_of (doc_of s.now)) j)) }
{
    frame::kind(s, f, j) == kind && text::same_text(name, grammar::text_of(s, f, j + 1))
}

// The first token of a kind, from one token up to another, with that name below it. It serves the crates above as well.
pub fn find_named(s: &[u8], f: Sheet, from: u32, to: u32, kind: u8, name: &[u8]) -> Option<u32>
    requires declared { Declared s.now f }
    requires to_le_tokens { to ≤ f.tokens }
    requires named { Named kind }
    ensures { result ≡ first_named (tree_of (doc_of s.now)) kind name.now from to }
{
    for j in from..to {
        if is_named(s, f, j, kind, name) {
            return Some(j);
        }
    }
    None
}

// What reading a sheet answered, with the number of the sheet in its refusal. It serves the crates above as well.
pub fn on_sheet(read: Result<Sheet, Fault>, sheet: u32) -> Result<Sheet, Refusal>
    ensures { result ≡ on_sheet sheet read }
{
    read.map_err(|fault| Refusal {
        number: fault.number,
        sheet,
        place: fault.place,
    })
}

// A refusal as an answer. It serves the crates above as well.
pub fn refused(number: u32, sheet: u32, place: u32) -> Answer
    ensures { result ≡ answer_of (refusal number sheet place) }
{
    Err(Refusal {
        number,
        sheet,
        place,
    })
}
