// The public operations for programs in other languages: each answers what its operation answers, as four numbers.
// The names have a prefix, since a name is the whole program's.
#![tactic(auto)]

ghost use Rattle.std.specs.Prelude.{◌≡◌, replicate};
ghost use Rattle.rules.specs.Kinds as Kind;
ghost use Rattle.schema.specs.Effect.{answer_of, read_statement, read_schema};
ghost use Rattle.schema_aware.specs.Check.{check_effect};
ghost use Rattle.margin.specs.Margin.{margin_effect};
ghost use Rattle.message.specs.Said.{message_effect};
ghost use Rattle.in_memory.specs.Store.{names_effect, endpoints_effect, digest_effect};
ghost use Rattle.rfc4180.specs.Line.{line_at};
ghost use Rattle.rows.specs.Rows.{row_statement};
ghost use Rattle.join.specs.Join.{join_statements};
ghost use Rattle.thin.specs.Thin.{thin_statement, thin_schema};
ghost use Rattle.exports.specs.Replies.{replied, Replies, row_told};

use rfc4180::Line;
use schema::Answer;

// An answer in four numbers. Accepted, number is 0, count is what was written and the others are 0. Refused, count is
// 0.
#[repr(C)]
#[derive(Clone, Copy)]
pub struct Reply {
    pub number: u32,
    pub sheet: u32,
    pub place: u32,
    pub count: u32,
}

// A digest, and the answer that goes with it.
#[repr(C)]
#[derive(Clone, Copy)]
pub struct Digested {
    pub reply: Reply,
    pub bytes: [u8; 32],
}

// The row that begins at a place of a text, the start. Number 0: its bytes go up to stop, and the next row begins at
// next. 18: the text ends at the start or before, and the other two are the start. 17: the text breaks RFC 4180 there,
// and the other two are the place where: of the byte that cannot stand there, or the text's length where it stops in
// quotes or behind a CR.
#[repr(C)]
#[derive(Clone, Copy)]
pub struct RowAt {
    pub number: u32,
    pub start: usize,
    pub stop: usize,
    pub next: usize,
}

impl From<Answer> for Reply {
    ghost from_gives = { λ a r. r ≡ replied a };

    fn from(a: Answer) -> Reply
        ensures { result ≡ replied a }
    {
        match a {
            Ok(count) => Reply {
                number: 0,
                sheet: 0,
                place: 0,
                count,
            },
            Err(q) => Reply {
                number: q.number,
                sheet: q.sheet,
                place: q.place,
                count: 0,
            },
        }
    }
}

#[unsafe(no_mangle)]
pub extern "C" fn nurbellat_read_statement(bytes: &[u8]) -> Reply
    ensures { result ≡ replied (answer_of (read_statement bytes.now)) }
{
    Reply::from(opening::read_statement(bytes))
}

#[unsafe(no_mangle)]
pub extern "C" fn nurbellat_read_schema(bytes: &[u8]) -> Reply
    ensures { result ≡ replied (answer_of (read_schema bytes.now)) }
{
    Reply::from(opening::read_schema(bytes))
}

#[unsafe(no_mangle)]
pub extern "C" fn nurbellat_check_schema_aware(
    statement: &[u8],
    schema: &[u8],
    list: &mut [u32],
) -> Reply
    ensures { Replies (check_effect statement.now schema.now list.old) list.old result list.new }
{
    Reply::from(schema_aware::check_schema_aware(statement, schema, list))
}

#[unsafe(no_mangle)]
pub extern "C" fn nurbellat_margin_list(statement: &[u8], schema: &[u8], list: &mut [u32]) -> Reply
    ensures { Replies (margin_effect statement.now schema.now list.old) list.old result list.new }
{
    Reply::from(margin::margin_list(statement, schema, list))
}

#[unsafe(no_mangle)]
pub extern "C" fn nurbellat_message(
    statement: &[u8],
    schema: &[u8],
    k: u32,
    text: &mut [u8],
) -> Reply
    ensures { Replies (message_effect statement.now schema.now k text.old) text.old result text.new }
{
    Reply::from(message::message(statement, schema, k, text))
}

#[unsafe(no_mangle)]
pub extern "C" fn nurbellat_label_names(schema: &[u8], out: &mut [u32]) -> Reply
    ensures { Replies (names_effect Kind.Label schema.now out.old) out.old result out.new }
{
    Reply::from(in_memory::label_names(schema, out))
}

#[unsafe(no_mangle)]
pub extern "C" fn nurbellat_rel_type_names(schema: &[u8], out: &mut [u32]) -> Reply
    ensures { Replies (names_effect Kind.RelType schema.now out.old) out.old result out.new }
{
    Reply::from(in_memory::rel_type_names(schema, out))
}

#[unsafe(no_mangle)]
pub extern "C" fn nurbellat_parameter_names(schema: &[u8], out: &mut [u32]) -> Reply
    ensures { Replies (names_effect Kind.Parameter schema.now out.old) out.old result out.new }
{
    Reply::from(in_memory::parameter_names(schema, out))
}

#[unsafe(no_mangle)]
pub extern "C" fn nurbellat_relationship_endpoints(
    schema: &[u8],
    rel_type: &[u8],
    out: &mut [u32],
) -> Reply
    ensures { Replies (endpoints_effect schema.now rel_type.now out.old) out.old result out.new }
{
    Reply::from(in_memory::relationship_endpoints(schema, rel_type, out))
}

#[unsafe(no_mangle)]
pub extern "C" fn nurbellat_schema_digest(schema: &[u8]) -> Digested
    ensures { Replies (digest_effect schema.now) (replicate 32 0) result.reply result.bytes }
{
    let d = in_memory::schema_digest(schema);
    let answer = d.answer;
    let bytes = d.bytes;
    Digested {
        reply: Reply::from(answer),
        bytes,
    }
}

#[unsafe(no_mangle)]
pub extern "C" fn nurbellat_row_statement(
    text: &[u8],
    label: &[u8],
    row: u32,
    out: &mut [u8],
) -> Reply
    ensures { Replies (row_statement text.now label.now row out.old) out.old result out.new }
{
    Reply::from(rows::row_statement(text, label, row, out))
}

#[unsafe(no_mangle)]
pub extern "C" fn nurbellat_next_row(text: &[u8], at: usize) -> RowAt
    ensures { result ≡ row_told at (line_at text.now at) }
{
    match rfc4180::next_row(text, at) {
        Line::Whole(span) => RowAt {
            number: 0,
            start: at,
            stop: span.stop,
            next: span.next,
        },
        Line::End => RowAt {
            number: 18,
            start: at,
            stop: at,
            next: at,
        },
        Line::Broken(stop) => RowAt {
            number: 17,
            start: at,
            stop,
            next: stop,
        },
    }
}

#[unsafe(no_mangle)]
pub extern "C" fn nurbellat_join_statements(first: &[u8], second: &[u8], out: &mut [u8]) -> Reply
    ensures { Replies (join_statements first.now second.now out.old) out.old result out.new }
{
    Reply::from(join::join_statements(first, second, out))
}

#[unsafe(no_mangle)]
pub extern "C" fn nurbellat_thin_statement(bytes: &[u8], out: &mut [u8]) -> Reply
    ensures { Replies (thin_statement bytes.now out.old) out.old result out.new }
{
    Reply::from(thin::thin_statement(bytes, out))
}

#[unsafe(no_mangle)]
pub extern "C" fn nurbellat_thin_schema(bytes: &[u8], out: &mut [u8]) -> Reply
    ensures { Replies (thin_schema bytes.now out.old) out.old result out.new }
{
    Reply::from(thin::thin_schema(bytes, out))
}
