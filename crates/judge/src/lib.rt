// The functions that judge one token of a statement, each equal to its part of the definition of a breach.
#![tactic(auto)]

ghost use Rattle.std.specs.Prelude.{[], ◌∷◌, ◌<◌};
ghost use Rattle.judge.specs.Window.{most_count, WroteItems};
ghost use Rattle.judge.specs.Judging.{item_of};

mod codes;
pub mod items;
pub mod keys;

// An item of the list, before it is written, without its clause.
#[derive(Clone, Copy)]
pub struct Entry {
    pub code: u32,
    pub start: u32,
    pub end: u32,
    pub owner: u32,
    pub stage: u32,
    pub ordinal: u32,
}

// How many places an item takes.
pub const WIDTH: usize = 7;

// Which items a list shows, from one on, how many were counted so far, and the number of the clause that they are in.
// There are no more items or clauses than tokens, so 16 bits suffice, and all three go in one register.
#[derive(Clone, Copy)]
pub struct Tally {
    pub from: u32,
    pub count: u16,
    pub clause: u16,
}

// The next item, at its place in the window; it is only counted where no whole item fits there.
fn put_item(tally: Tally, e: Entry, list: &mut [u32]) -> Tally
    requires { tally.count < most_count }
    ensures { WroteItems (item_of e tally.clause ∷ []) tally list.old result list.new }
{
    let next = Tally {
        count: tally.count + 1,
        ..tally
    };
    let number = tally.count as u32;
    if number < tally.from {
        return next;
    }
    let k = (number - tally.from) as usize;
    if list.len() / WIDTH <= k {
        return next;
    }
    let at = WIDTH * k;
    list[at] = e.code;
    list[at + 1] = e.start;
    list[at + 2] = e.end;
    list[at + 3] = e.owner;
    list[at + 4] = e.stage;
    list[at + 5] = e.ordinal;
    list[at + 6] = tally.clause as u32;
    next
}
