// The walk over a statement, which lists what is wrong with each token, in order.
#![tactic(auto)]

ghost use Rattle.std.specs.Prelude.{◌≡◌, true, false, ◌<◌};
ghost use Rattle.rules.specs.Kinds as Kind;
ghost use Rattle.frame.specs.Doc.{doc_of, kind_of};
ghost use Rattle.grammar.specs.Tree.{parent};
ghost use Rattle.breach.specs.Breach.{is_element, holder, statement_in, schema_in};
ghost use Rattle.breach.specs.Listing.{listed};
ghost use Rattle.judge.specs.Window.{half_count, ToldItems};
ghost use Rattle.judge.specs.Judging.{Lent};
ghost use Rattle.walk.specs.Walk.{is_leaf, holds_elements, TreeReady, BelowReady, PassReady, ClauseReady, Own, OpenedAt, Passed, WroteBelow, Walked, Cleared};

use frame::Sizes;
use judge::Tally;
use rules::kinds;

// What a pattern stands in, by its kind; and whether this is the later pass, for E3009.
#[derive(Clone, Copy)]
pub struct Context {
    pub holder: u8,
    pub later: bool,
}

// Where a walk stands: the next token, and the tally of items.
#[derive(Clone, Copy)]
pub struct Step {
    pub next: u32,
    pub tally: Tally,
}

// What a token opens, so many trees, and the tally after its items.
#[derive(Clone, Copy)]
pub struct Opened {
    pub trees: u64,
    pub tally: Tally,
}

// Where a walk over expressions stands: the next token, how many trees are left from there on, and the tally.
#[derive(Clone, Copy)]
pub struct Pass {
    pub next: u32,
    pub left: u64,
    pub tally: Tally,
}

// Most tokens are leaves: they are passed without a look at the rules.
fn is_leaf(kind: u8) -> bool
    ensures { result ≡ is_leaf kind }
{
    kind < kinds::PROP || (kind == kinds::NAME || kind == kinds::NUMBER)
}

// A token that is no element: its items, and what it opens.
fn check_token(
    s: &[u8],
    d: &[u8],
    sizes: Sizes,
    register: &[u32],
    i: u32,
    tally: Tally,
    list: &mut [u32],
) -> Opened
    requires lent { Lent s.now d.now sizes register.now }
    requires i_lt_tokens { i < sizes.statement.tokens }
    requires i_value { is_element (kind_of (doc_of s.now) i) ≡ false }
    requires count_lt_half_count { tally.count < half_count }
    ensures { OpenedAt (statement_in s.now) (schema_in d.now) i tally list.old result list.new }
{
    if is_leaf(frame::kind(s, sizes.statement, i)) {
        return Opened { trees: 0, tally };
    }
    let tallied = judge::items::token_items(s, d, sizes, register, i, tally, list);
    Opened {
        trees: grammar::arity_of(s, sizes.statement, i),
        tally: tallied,
    }
}

// Expressions, token by token, up to the next pattern or to their end.
fn pass_tokens(
    s: &[u8],
    d: &[u8],
    sizes: Sizes,
    register: &[u32],
    mut p: Pass,
    list: &mut [u32],
) -> Pass
    requires { PassReady s.now d.now sizes register.now p }
    ensures { Passed (statement_in s.now) (schema_in d.now) p list.old result list.new }
{
    while 0 < p.left && frame::kind(s, sizes.statement, p.next) != kinds::PATTERN {
        let o = check_token(s, d, sizes, register, p.next, p.tally, list);
        p = Pass {
            next: p.next + 1,
            left: p.left - 1 + o.trees,
            tally: o.tally,
        };
    }
    p
}

// The items of an element: names, Apart labels and keys, or in the later pass its merge key.
fn check_node_props(
    s: &[u8],
    d: &[u8],
    sizes: Sizes,
    register: &[u32],
    i: u32,
    c: Context,
    tally: Tally,
    list: &mut [u32],
) -> Tally
    requires tree_ready { TreeReady c.later s.now d.now sizes register.now i tally }
    requires i_value { is_element (kind_of (doc_of s.now) i) ≡ true }
    requires holder_value { c.holder ≡ holder (statement_in s.now) i }
    ensures { Own c.later (statement_in s.now) (schema_in d.now) i tally list.old result list.new }
{
    if c.later {
        return judge::keys::merge_item(s, d, sizes, register, i, c.holder, tally, list);
    }
    let named = judge::items::name_items(s, d, sizes, register, i, tally, list);
    let noded = judge::items::node_item(s, d, sizes, register, i, c.holder, named, list);
    judge::keys::key_items(s, d, sizes, register, i, noded, list)
}

// What belongs to token i, a clause or an element: its expressions, and the patterns in them.
#[cycle(check_element_check_expr_check_part_check_pattern)]
fn check_expr(
    s: &[u8],
    d: &[u8],
    sizes: Sizes,
    register: &[u32],
    i: u32,
    tally: Tally,
    list: &mut [u32],
) -> Step
    requires below_ready { BelowReady false s.now d.now sizes register.now i tally }
    requires i_value { holds_elements (kind_of (doc_of s.now) i) ≡ false }
    ensures { WroteBelow false (statement_in s.now) (schema_in d.now) i tally list.old result list.new }
{
    let first = Pass {
        next: i + 1,
        left: grammar::arity_of(s, sizes.statement, i),
        tally,
    };
    let mut p = pass_tokens(s, d, sizes, register, first, list);
    while 0 < p.left {
        let r = check_pattern(s, d, sizes, register, p.next, false, p.tally, list);
        let after = Pass {
            next: r.next,
            left: p.left - 1,
            tally: r.tally,
        };
        p = pass_tokens(s, d, sizes, register, after, list);
    }
    Step {
        next: p.next,
        tally: p.tally,
    }
}

// A pattern, part by part. What it stands in is the token before it.
#[cycle(check_element_check_expr_check_part_check_pattern)]
fn check_pattern(
    s: &[u8],
    d: &[u8],
    sizes: Sizes,
    register: &[u32],
    i: u32,
    later: bool,
    tally: Tally,
    list: &mut [u32],
) -> Step
    requires tree_ready { TreeReady later s.now d.now sizes register.now i tally }
    requires i_value { kind_of (doc_of s.now) i ≡ Kind.Pattern }
    ensures { Walked later (statement_in s.now) (schema_in d.now) i tally list.old result list.new }
{
    let c = Context {
        holder: frame::kind(s, sizes.statement, i - 1),
        later,
    };
    let many = grammar::arity_of(s, sizes.statement, i);
    let mut step = Step { next: i + 1, tally };
    for _ in 0..many {
        step = check_part(s, d, sizes, register, step.next, c, step.tally, list);
    }
    step
}

// A part, element by element.
#[cycle(check_element_check_expr_check_part_check_pattern)]
fn check_part(
    s: &[u8],
    d: &[u8],
    sizes: Sizes,
    register: &[u32],
    i: u32,
    c: Context,
    tally: Tally,
    list: &mut [u32],
) -> Step
    requires tree_ready { TreeReady c.later s.now d.now sizes register.now i tally }
    requires i_value { kind_of (doc_of s.now) i ≡ Kind.Part }
    requires holder_value { c.holder ≡ kind_of (doc_of s.now) (parent (statement_in s.now) (parent (statement_in s.now) i)) }
    ensures { Walked c.later (statement_in s.now) (schema_in d.now) i tally list.old result list.new }
{
    let many = grammar::arity_of(s, sizes.statement, i);
    let mut step = Step { next: i + 1, tally };
    for _ in 0..many {
        step = check_element(s, d, sizes, register, step.next, c, step.tally, list);
    }
    step
}

// An element: what is wrong with it, and then its properties, which have nothing for the later pass.
#[cycle(check_element_check_expr_check_part_check_pattern)]
fn check_element(
    s: &[u8],
    d: &[u8],
    sizes: Sizes,
    register: &[u32],
    i: u32,
    c: Context,
    tally: Tally,
    list: &mut [u32],
) -> Step
    requires tree_ready { TreeReady c.later s.now d.now sizes register.now i tally }
    requires i_value { is_element (kind_of (doc_of s.now) i) ≡ true }
    requires holder_value { c.holder ≡ holder (statement_in s.now) i }
    ensures { Walked c.later (statement_in s.now) (schema_in d.now) i tally list.old result list.new }
{
    let tallied = check_node_props(s, d, sizes, register, i, c, tally, list);
    if c.later {
        return Step {
            next: grammar::skip(s, sizes.statement, i),
            tally: tallied,
        };
    }
    check_expr(s, d, sizes, register, i, tallied, list)
}

// The keys by which the elements of a Merge's pattern are merged, judged after the whole pattern.
fn check_merge_keys(
    s: &[u8],
    d: &[u8],
    sizes: Sizes,
    register: &[u32],
    i: u32,
    tally: Tally,
    list: &mut [u32],
) -> Step
    requires tree_ready { TreeReady true s.now d.now sizes register.now i tally }
    requires i_value { kind_of (doc_of s.now) i ≡ Kind.Pattern }
    ensures { Walked true (statement_in s.now) (schema_in d.now) i tally list.old result list.new }
{
    check_pattern(s, d, sizes, register, i, true, tally, list)
}

// A clause: all its tokens, and if it is a Merge its pattern once more for the merge keys, which come last.
fn check_clause(
    s: &[u8],
    d: &[u8],
    sizes: Sizes,
    register: &[u32],
    i: u32,
    tally: Tally,
    list: &mut [u32],
) -> Step
    requires { ClauseReady s.now d.now sizes register.now i tally }
    ensures { Cleared (statement_in s.now) (schema_in d.now) i tally list.old result list.new }
{
    let tallied = judge::items::token_items(s, d, sizes, register, i, tally, list);
    let a = check_expr(s, d, sizes, register, i, tallied, list);
    if frame::kind(s, sizes.statement, i) != kinds::MERGE {
        return a;
    }
    check_merge_keys(s, d, sizes, register, i + 1, a.tally, list)
}

// All clauses of a statement, each with its number: how many items they have, with those that the window shows
// written. It serves the crates above.
pub fn check_clauses(
    s: &[u8],
    d: &[u8],
    sizes: Sizes,
    register: &[u32],
    from: u32,
    list: &mut [u32],
) -> u32
    requires { Lent s.now d.now sizes register.now }
    ensures { ToldItems (listed (statement_in s.now) (schema_in d.now)) from list.old result list.new }
{
    let clauses = frame::value(s, sizes.statement, 0);
    let mut at: u32 = 1;
    let mut count: u16 = 0;
    for clause in 0..clauses {
        let tally = Tally {
            from,
            count,
            clause: clause as u16,
        };
        let r = check_clause(s, d, sizes, register, at, tally, list);
        at = r.next;
        count = r.tally.count;
    }
    count as u32
}
