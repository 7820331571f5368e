// The table's check, in one pass that fills the index.
ghost use Rattle.table.specs.Index.{IndexTableContract};

use crate::index::{FIRST_RULE, row_from};
use crate::number::number_below;
use crate::rule::rule_parts;
use minuska::limits::{MAX_RULES, MAX_TABLE_WORDS};
use minuska::{Refusal, Row};

// The check. A rule's row is written once it is accepted.
pub fn fill(table: &[i64], rows: &mut [Row; MAX_RULES]) -> Result<(), Refusal>
    ensures { IndexTableContract table.now rows.old rows.new result }
{
    let n = table.len();
    if n == 0 || MAX_TABLE_WORDS < n {
        return Err(Refusal::BadTable);
    }
    let count = number_below(MAX_RULES + 1, table[0]).ok_or(Refusal::BadTable)?;
    let mut at = FIRST_RULE;
    for row in &mut rows[..count] {
        let parts = rule_parts(table, at).ok_or(Refusal::BadTable)?;
        *row = row_from(table, at, parts);
        at = parts.end;
    }
    if at < n {
        return Err(Refusal::BadTable);
    }
    Ok(())
}
