// Numbers of names, each once and in order: marks by number tell which stand in the list already, so that no text is
// compared for a number that comes again.
ghost use Rattle.std.specs.Prelude.{◌≡◌, true, false, ◌+◌, ◌≤◌, ◌<◌, length, get_or, set};
ghost use Rattle.lists.specs.Lists.{pick};
ghost use Rattle.frame.specs.Limits.{max_names};
ghost use Rattle.frame.specs.Doc.{doc_of};
ghost use Rattle.frame.specs.Inner.{Sound, Numbers};
ghost use Rattle.in_order.specs.Inner.{AllBelow, marked, Once, OnceInOrder};

use crate::Entry;
use frame::Sheet;
use std::mem;

// Room for as many numbers as there can be names.
pub const NAMES: usize = Sheet::MAX_NAMES as usize;

// Marks a number; it says whether that was marked before.
fn mark(k: u32, marks: &mut [bool]) -> bool
    requires { k < length marks.old }
    ensures { (result ≡ get_or marks.old k false) × (marks.new ≡ set marks.old k true) }
{
    mem::replace(&mut marks[k as usize], true)
}

// Writes a number at the next place, unless it is marked, and marks it: the next place then.
fn list_new(k: u32, marks: &mut [bool], many: usize, list: &mut [u32]) -> usize
    requires k_in_bounds { k < length marks.old }
    requires many_in_bounds { get_or marks.old k false ≡ false → many < length list.old }
    ensures marks_after { marks.new ≡ set marks.old k true }
    ensures value { result ≡ pick (get_or marks.old k false) many (many + 1) }
    ensures list_after { list.new ≡ pick (get_or marks.old k false) list.old (set list.old many k) }
{
    if mark(k, marks) {
        return many;
    }
    list[many] = k;
    many + 1
}

// Lists each of the numbers once, with marks for all of them: how many there are.
fn list_with(numbers: &[u32], marks: &mut [bool], list: &mut [u32]) -> usize
    requires all_below { AllBelow (length marks.old) numbers.now }
    requires marks_value { marked marks.old ≡ 0 }
    requires marks_in_bounds { length marks.old ≤ length list.old }
    ensures { Once numbers.now result list.new }
{
    let mut many: usize = 0;
    for &k in numbers {
        many = list_new(k, marks, many, list);
    }
    many
}

// Lists each of the numbers once: how many there are.
fn list_once(numbers: &[u32], list: &mut [u32]) -> usize
    requires all_below { AllBelow max_names numbers.now }
    requires max_names_in_bounds { max_names ≤ length list.old }
    ensures { Once numbers.now result list.new }
{
    let mut marks = [false; NAMES];
    list_with(numbers, &mut marks, list)
}

// Lists each of the numbers of names once, sorted by the names' texts: how many there are.
pub fn list_in_order(s: &[u8], f: Sheet, numbers: &[u32], list: &mut [u32]) -> usize
    requires sound { Sound s.now f }
    requires numbers { Numbers (doc_of s.now) numbers.now }
    requires list_len { length list.old ≡ max_names }
    ensures { OnceInOrder (doc_of s.now) numbers.now result list.new }
{
    let many = list_once(numbers, list);
    crate::sort(s, f, Entry::Number, &mut list[..many]);
    many
}
