// Functions in order by name, A to Z as a to z, found by halving.
#![tactic(auto)]

ghost use Rattle.std.specs.Prelude.{◌≡◌, ◌+◌};
ghost use Rattle.text.specs.Folded.{folded, same_folded};
ghost use Rattle.frame.specs.Doc.{doc_of};
ghost use Rattle.frame.specs.Inner.{Sound};
ghost use Rattle.lists.specs.Lists.{first};
ghost use Rattle.grammar.specs.Tree.{tree_of};
ghost use Rattle.grammar.specs.Inner.{NameAt};
ghost use Rattle.schema.specs.Declarations.{name_below};
ghost use Rattle.in_order.specs.InOrder.{before, Rises};
ghost use Rattle.in_order.specs.Inner.{AllNamed};
ghost use Rattle.in_order.specs.declared.Entry.TheVariants.{Function};
ghost use Rattle.functions.specs.Functions.{folded_below};
ghost use Rattle.functions.specs.Inner.{Parted};

use frame::Sheet;

// Whether the name of function i is less than a name.
fn is_less(d: &[u8], g: Sheet, i: u32, name: &[u8]) -> bool
    requires sound { Sound d.now g }
    requires name_at { NameAt (doc_of d.now) (i + 1) }
    ensures { result ≡ before (folded_below (tree_of (doc_of d.now)) i) (folded name.now) }
{
    text::compare_folded(grammar::text_of(d, g, i + 1), name).is_lt()
}

// The place behind all functions whose name is less than a name. The library's `partition_point` asks that its test can
// be called with every number, and this one asks for a function's.
fn lower_bound(d: &[u8], g: Sheet, functions: &[u32], name: &[u8]) -> usize
    requires sound { Sound d.now g }
    requires all_named { AllNamed (doc_of d.now) Function functions.now }
    requires rises { Rises (folded_below (tree_of (doc_of d.now))) functions.now }
    ensures { Parted (folded_below (tree_of (doc_of d.now))) (folded name.now) functions.now result result }
{
    let mut low: usize = 0;
    let mut high = functions.len();
    while low < high {
        let mid = low + (high - low) / 2;
        if is_less(d, g, functions[mid], name) {
            low = mid + 1;
        } else {
            high = mid;
        }
    }
    low
}

// The first of the functions that has a name, A to Z as a to z, by halving.
pub fn find(d: &[u8], g: Sheet, functions: &[u32], name: &[u8]) -> Option<u32>
    requires sound { Sound d.now g }
    requires all_named { AllNamed (doc_of d.now) Function functions.now }
    requires rises { Rises (folded_below (tree_of (doc_of d.now))) functions.now }
    ensures { result ≡ first (λ i. same_folded name.now (name_below (tree_of (doc_of d.now)) i)) functions.now }
{
    let at = lower_bound(d, g, functions, name);
    let &i = functions.get(at)?;
    text::same_folded(name, grammar::text_of(d, g, i + 1)).then_some(i)
}
