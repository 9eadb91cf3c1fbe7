// Two statement sheets joined into one: the clauses of the first, then those of the second.
#![tactic(auto)]

ghost use Rattle.std.specs.Prelude.{◌≡◌, ◌+◌, ◌≤◌, ◌<◌, map, length, drop, eqb};
ghost use Rattle.lists.specs.Lists.{pick};
ghost use Rattle.frame.specs.Limits.{max_names};
ghost use Rattle.frame.specs.Sheet.{bytes_of};
ghost use Rattle.frame.specs.Doc.{doc_of, kind_of, value_of};
ghost use Rattle.rules.specs.Kinds as Kind;
ghost use Rattle.schema.specs.Effect.{writes, exit, Done};
ghost use Rattle.written.specs.Written.{text_in, ends_from, sizes_within, written};
ghost use Rattle.written.specs.Inner.{TokensPut, NamesPut};
ghost use Rattle.join.specs.Join.{numbered_after, joined, join_effect, join_statements};
ghost use Rattle.join.specs.Inner.{Few, Stated, joined_sizes, Follows};

use frame::Sheet;
use rules::kinds;
use schema::Answer;

// The sizes of the joined sheet: one Statement for two, the names and the text of both.
fn sizes_of(f: Sheet, g: Sheet) -> Sheet
    requires few { Few f }
    requires few_2 { Few g }
    requires le_tokens { 1 ≤ f.tokens }
    ensures { result ≡ joined_sizes f g }
{
    Sheet {
        tokens: f.tokens + g.tokens - 1,
        names: f.names + g.names,
        text: f.text + g.text,
    }
}

// Whether no size passes its limit.
fn is_within(f: Sheet) -> bool
    ensures { result ≡ sizes_within f }
{
    f.tokens <= Sheet::MAX_TOKENS && f.names <= Sheet::MAX_NAMES && f.text <= Sheet::MAX_TEXT
}

// The value of token i behind so many names of another sheet.
fn value_after(names: u32, s: &[u8], f: Sheet, i: u32) -> u32
    requires stated { Stated s.now f }
    requires i_lt_tokens { i < f.tokens }
    requires names_le_max_names { names ≤ max_names }
    ensures { result ≡ pick (eqb (kind_of (doc_of s.now) i) Kind.Name) (names + value_of (doc_of s.now) i) (value_of (doc_of s.now) i) }
{
    let value = frame::value(s, f, i);
    if frame::kind(s, f, i) != kinds::NAME {
        return value;
    }
    names + value
}

// Puts the tokens of a statement's clauses behind a statement of sizes `before`.
fn put_tokens(h: Sheet, before: Sheet, s: &[u8], f: Sheet, out: &mut [u8])
    requires h_in_bounds { bytes_of h ≤ length out.old }
    requires stated { Stated s.now f }
    requires follows { Follows h before f }
    requires few { Few h }
    ensures { TokensPut h before.tokens (map (numbered_after before.names) (drop 1 (doc_of s.now).tokens)) out.old out.new }
{
    let mut at = before.tokens;
    for i in 1..f.tokens {
        let kind = frame::kind(s, f, i);
        let value = value_after(before.names, s, f, i);
        written::put_token(h, at, kind, value, out);
        at += 1;
    }
}

// Puts the names of a statement behind those of one of sizes `before`.
fn put_names(h: Sheet, before: Sheet, s: &[u8], f: Sheet, out: &mut [u8])
    requires h_in_bounds { bytes_of h ≤ length out.old }
    requires stated { Stated s.now f }
    requires follows { Follows h before f }
    requires few { Few h }
    ensures { NamesPut h before.names (ends_from before.text (doc_of s.now).names) before.text (text_in (doc_of s.now).names) out.old out.new }
{
    let mut end = before.text;
    for k in 0..f.names {
        let name = frame::name(s, f, k);
        written::put_text(h, end, name, out);
        end += name.len() as u32;
        written::put_end(h, before.names + k, end, out);
    }
}

// Puts the joined sheet into a buffer that has room for it.
fn put_joined(first: &[u8], f: Sheet, second: &[u8], g: Sheet, out: &mut [u8])
    requires stated { Stated first.now f }
    requires stated_2 { Stated second.now g }
    requires few { Few (joined_sizes f g) }
    requires g_in_bounds { bytes_of (joined_sizes f g) ≤ length out.old }
    ensures { out.new ≡ exit (writes 0 (written (joined (doc_of first.now) (doc_of second.now)))) out.old }
{
    let h = sizes_of(f, g);
    let clauses = frame::value(first, f, 0) + frame::value(second, g, 0);
    let alone = Sheet {
        tokens: 1,
        names: 0,
        text: 0,
    };
    written::put_sizes(h, out);
    written::put_token(h, 0, kinds::STATEMENT, clauses, out);
    put_tokens(h, alone, first, f, out);
    put_tokens(h, f, second, g, out);
    put_names(h, alone, first, f, out);
    put_names(h, f, second, g, out);
}

// Writes the sheet of two statements that were read: 20, 16, or the number of bytes. Refused, the buffer is as it came.
fn fit_joined(first: &[u8], f: Sheet, second: &[u8], g: Sheet, out: &mut [u8]) -> Answer
    requires stated { Stated first.now f }
    requires stated_2 { Stated second.now g }
    ensures { Done (join_effect (joined (doc_of first.now) (doc_of second.now)) out.old) out.old result out.new }
{
    let h = sizes_of(f, g);
    if !is_within(h) {
        return schema::refused(20, 0, 0);
    }
    let bytes = frame::length_of(h);
    if out.len() < bytes {
        return schema::refused(16, 0, 0);
    }
    put_joined(first, f, second, g, out);
    Ok(bytes as u32)
}

// The sheet of two statements as one: the clauses of the first, then those of the second. The first's refusals (sheet
// 1), the second's (sheet 2), 20 where the joined sheet would pass a size limit, 16; else the number of bytes written.
// Refused, the buffer is as it came.
pub fn join_statements(first: &[u8], second: &[u8], out: &mut [u8]) -> Answer
    ensures { Done (join_statements first.now second.now out.old) out.old result out.new }
{
    let f = schema::on_sheet(opening::open_statement(first), 1)?;
    let g = schema::on_sheet(opening::open_statement(second), 2)?;
    fit_joined(first, f, second, g, out)
}
