// The messages: the text of an item of the list.
#![tactic(auto)]

ghost use mathlib.Core.List.{Memᴰ};
ghost use Rattle.std.specs.Prelude.{◌≤◌, length};
ghost use Rattle.lists.specs.Lists.{nth};
ghost use Rattle.schema.specs.Effect.{Done, fitted};
ghost use Rattle.breach.specs.Breach.{statement_in, schema_in};
ghost use Rattle.breach.specs.Listing.{listed};
ghost use Rattle.register.specs.Register.{Registered};
ghost use Rattle.opening.specs.Reading.{BothRead};
ghost use Rattle.judge.specs.Judging.{Lent, item_in};
ghost use Rattle.phrase.specs.Inner.{Put};
ghost use Rattle.message.specs.Message.{message_of};
ghost use Rattle.message.specs.Said.{item_effect, message_effect};

use frame::{Fault, Sizes};
use judge::Entry;
use schema::Answer;

// The text of an item of the list, from the buffer's start: where it ends. Over a buffer without room only its length
// is found.
fn put_message(
    s: &[u8],
    d: &[u8],
    sizes: Sizes,
    register: &[u32],
    e: Entry,
    text: &mut [u8],
) -> usize
    requires lent { Lent s.now d.now sizes register.now }
    requires fact { Memᴰ (item_in (statement_in s.now) e) (listed (statement_in s.now) (schema_in d.now)) }
    ensures { Put (message_of (statement_in s.now) (schema_in d.now) (item_in (statement_in s.now) e)) 0 text.old result text.new × (result ≤ 1000000000) }
{
    let f = sizes.statement;
    let code = e.code;
    let i = e.owner;
    let k = e.ordinal;
    match code {
        3001 => sentence::put_quoted(s, f, b"unknown label `:", i + 3 + k, b"`", text),
        3002 => sentence::put_quoted(s, f, b"unknown relationship type `:", i + 3 + k, b"`", text),
        3003 => sentence::undeclared_key(s, f, i, k, text),
        3004 => sentence::wrong_type(s, d, sizes, register, i, k, text),
        3006 => sentence::put_quoted(s, f, b"unknown function `", i + 1, b"`", text),
        3007 => sentence::wrong_count(s, d, sizes, register, i, text),
        3008 => sentence::put_quoted(s, f, b"unknown procedure `", i + 3, b"`", text),
        3009 => sentence::unbacked_key(s, f, i, text),
        4023 => sentence::apart_labels(s, f, i, text),
        _ => 0,
    }
}

// Measures first, over a buffer without room, so that a buffer that is too short stays as it came; and then writes.
fn message_fitted(
    s: &[u8],
    d: &[u8],
    sizes: Sizes,
    register: &[u32],
    e: Entry,
    text: &mut [u8],
) -> Answer
    requires lent { Lent s.now d.now sizes register.now }
    requires fact { Memᴰ (item_in (statement_in s.now) e) (listed (statement_in s.now) (schema_in d.now)) }
    ensures { Done (fitted (length (message_of (statement_in s.now) (schema_in d.now) (item_in (statement_in s.now) e))) (message_of (statement_in s.now) (schema_in d.now) (item_in (statement_in s.now) e)) text.old) text.old result text.new }
{
    let mut nowhere = [0; 1];
    let size = put_message(s, d, sizes, register, e, &mut nowhere);
    if text.len() < size {
        return schema::refused(16, 0, 0);
    }
    let written = put_message(s, d, sizes, register, e, text);
    Ok(written as u32)
}

// Item k: all items are counted, and a window of one item shows it.
fn message_lent(
    s: &[u8],
    d: &[u8],
    sizes: Sizes,
    register: &[u32],
    k: u32,
    text: &mut [u8],
) -> Answer
    requires { Lent s.now d.now sizes register.now }
    ensures { Done (item_effect (statement_in s.now) (schema_in d.now) (nth (listed (statement_in s.now) (schema_in d.now)) k) text.old) text.old result text.new }
{
    let mut item = [0; judge::WIDTH];
    let many = walk::check_clauses(s, d, sizes, register, k, &mut item);
    if many <= k {
        return schema::refused(15, 0, 0);
    }
    let e = Entry {
        code: item[0],
        start: item[1],
        end: item[2],
        owner: item[3],
        stage: item[4],
        ordinal: item[5],
    };
    message_fitted(s, d, sizes, register, e, text)
}

// Looks for 10 to 13 by the register, and goes on with it.
fn message_registered(
    s: &[u8],
    d: &[u8],
    sizes: Sizes,
    register: &[u32],
    k: u32,
    text: &mut [u8],
) -> Answer
    requires both_read { BothRead s.now d.now sizes }
    requires registered { Registered s.now d.now sizes register.now }
    ensures { Done (message_effect s.now d.now k text.old) text.old result text.new }
{
    if let Some(fault) = opening::declared_fault(s, d, sizes, register) {
        return schema::refused(fault.number, 2, fault.place);
    }
    message_lent(s, d, sizes, register, k, text)
}

// Makes the register of the two sheets, a short one where it has room, as it is cleared first.
fn message_read(s: &[u8], d: &[u8], sizes: Sizes, k: u32, text: &mut [u8]) -> Answer
    requires { BothRead s.now d.now sizes }
    ensures { Done (message_effect s.now d.now k text.old) text.old result text.new }
{
    if register::is_short(sizes) {
        let mut few = [0; register::FEW_ROOM];
        register::fill(s, d, sizes, &mut few);
        return message_registered(s, d, sizes, &few, k, text);
    }
    let mut all = [0; register::ROOM];
    register::fill(s, d, sizes, &mut all);
    message_registered(s, d, sizes, &all, k, text)
}

// Writes the message of item k of the list that the check gives, from 0. Refused, the buffer is as it came.
pub fn message(statement: &[u8], schema: &[u8], k: u32, text: &mut [u8]) -> Answer
    ensures { Done (message_effect statement.now schema.now k text.old) text.old result text.new }
{
    let sizes = opening::read_both(statement, schema)?;
    message_read(statement, schema, sizes, k, text)
}
