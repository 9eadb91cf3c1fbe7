// Sheets made thin: a statement's and a schema's, into a lent buffer. Nothing is required of a caller.
#![tactic(auto)]

ghost use Rattle.frame.specs.Inner.{Sound};
ghost use Rattle.schema.specs.Effect.{Done};
ghost use Rattle.thin.specs.Thin.{thin_effect, thin_statement, thin_schema};

use frame::Sheet;
use schema::Answer;

// Writes a sheet that was read as a thin one: 16, or the number of bytes. Refused, the buffer is as it came.
fn fit_thin(s: &[u8], f: Sheet, out: &mut [u8]) -> Answer
    requires { Sound s.now f }
    ensures { Done (thin_effect s.now out.old) out.old result out.new }
{
    let bytes = thinned::length_of(f);
    if out.len() < bytes {
        return schema::refused(16, 0, 0);
    }
    thinned::put_thin(s, f, out);
    Ok(bytes as u32)
}

// A statement sheet with its name ends in two bytes each; a thin sheet is copied. The sheet's refusals (sheet 1), 16;
// else the number of bytes written. Refused, the buffer is as it came.
pub fn thin_statement(bytes: &[u8], out: &mut [u8]) -> Answer
    ensures { Done (thin_statement bytes.now out.old) out.old result out.new }
{
    let f = schema::on_sheet(opening::open_statement(bytes), 1)?;
    fit_thin(bytes, f, out)
}

// The same of a schema sheet, with the schema's refusals (sheet 2).
pub fn thin_schema(bytes: &[u8], out: &mut [u8]) -> Answer
    ensures { Done (thin_schema bytes.now out.old) out.old result out.new }
{
    let f = schema::on_sheet(opening::open_schema(bytes), 2)?;
    fit_thin(bytes, f, out)
}
