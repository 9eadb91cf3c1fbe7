// The margin list: the check's list by span start, for whoever reads a paper from left to right.
#![tactic(auto)]

ghost use Rattle.schema.specs.Effect.{Done};
ghost use Rattle.margin.specs.Margin.{margin_effect};

use schema::Answer;

// Lists what is wrong with a statement against a schema, as the check does, by span start; equal starts are in the
// check's order. Refused, the list is as it came.
pub fn margin_list(statement: &[u8], schema: &[u8], list: &mut [u32]) -> Answer
    ensures { Done (margin_effect statement.now schema.now list.old) list.old result list.new }
{
    let n = schema_aware::check_schema_aware(statement, schema, list)?;
    sorting::sort_items(list, n);
    Ok(n)
}
