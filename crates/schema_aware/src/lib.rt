// The check: what is wrong with a statement against a schema, as a list.
#![tactic(auto)]

ghost use Rattle.std.specs.Prelude.{◌≡◌, ◌+◌, ◌<◌, ◌≤◌, length, leb};
ghost use Rattle.breach.specs.Breach.{statement_in, schema_in};
ghost use Rattle.breach.specs.Listing.{listed};
ghost use Rattle.register.specs.Register.{Registered, aparts_at};
ghost use Rattle.opening.specs.Reading.{BothRead};
ghost use Rattle.judge.specs.Judging.{Lent};
ghost use Rattle.schema.specs.Effect.{Done};
ghost use Rattle.schema_aware.specs.Check.{items_effect, check_effect};

use frame::Sizes;
use register::{FEW_ROOM, ROOM};
use schema::Answer;

// The list has no room for all items.
const NO_ROOM: u32 = 14;

// Whether all items fit into a number of places for items. There are no more items than tokens, so where there are
// places enough nothing is counted.
fn fits(s: &[u8], d: &[u8], sizes: Sizes, register: &[u32], room: usize) -> bool
    requires { Lent s.now d.now sizes register.now }
    ensures { result ≡ leb (length (listed (statement_in s.now) (schema_in d.now))) room }
{
    if (sizes.statement.tokens as usize) <= room {
        return true;
    }
    let mut none = [0; 1];
    let counted = walk::check_clauses(s, d, sizes, register, 0, &mut none);
    (counted as usize) <= room
}

// 14 comes before anything is written, so that a list that is too short stays as it came.
fn check_lent(s: &[u8], d: &[u8], sizes: Sizes, register: &[u32], list: &mut [u32]) -> Answer
    requires { Lent s.now d.now sizes register.now }
    ensures { Done (items_effect (listed (statement_in s.now) (schema_in d.now)) list.old) list.old result list.new }
{
    if !fits(s, d, sizes, register, list.len() / judge::WIDTH) {
        return schema::refused(NO_ROOM, 0, 0);
    }
    Ok(walk::check_clauses(s, d, sizes, register, 0, list))
}

// Looks for 10 to 13 by the register, and goes on with it.
fn check_registered(s: &[u8], d: &[u8], sizes: Sizes, register: &[u32], list: &mut [u32]) -> Answer
    requires both_read { BothRead s.now d.now sizes }
    requires registered { Registered s.now d.now sizes register.now }
    ensures { Done (check_effect s.now d.now list.old) list.old result list.new }
{
    if let Some(fault) = opening::declared_fault(s, d, sizes, register) {
        return schema::refused(fault.number, 2, fault.place);
    }
    check_lent(s, d, sizes, register, list)
}

// Makes the register of the two sheets in a list of N places.
fn check_within<const N: usize>(s: &[u8], d: &[u8], sizes: Sizes, list: &mut [u32]) -> Answer
    requires both_read { BothRead s.now d.now sizes }
    requires sizes_in_bounds { aparts_at (sizes.schema.names + sizes.statement.names) + sizes.schema.tokens < N }
    requires few_places { N ≤ ROOM }
    ensures { Done (check_effect s.now d.now list.old) list.old result list.new }
{
    let mut register = [0; N];
    register::fill(s, d, sizes, &mut register);
    check_registered(s, d, sizes, &register, list)
}

// The same with a short list where it has room, as it is cleared first.
fn check_read(s: &[u8], d: &[u8], sizes: Sizes, list: &mut [u32]) -> Answer
    requires { BothRead s.now d.now sizes }
    ensures { Done (check_effect s.now d.now list.old) list.old result list.new }
{
    if register::is_short(sizes) {
        return check_within::<FEW_ROOM>(s, d, sizes, list);
    }
    check_within::<ROOM>(s, d, sizes, list)
}

// Lists what is wrong with a statement against a schema: every breach once, in order, seven numbers each. Refused, the
// list is as it came.
pub fn check_schema_aware(statement: &[u8], schema: &[u8], list: &mut [u32]) -> Answer
    ensures { Done (check_effect statement.now schema.now list.old) list.old result list.new }
{
    let sizes = opening::read_both(statement, schema)?;
    check_read(statement, schema, sizes, list)
}
