// The table's check, and the index: where the parts of each rule stand.
#![tactic(auto)]

pub mod checked;
mod expression;
mod fill;
pub mod index;
pub mod key;
mod node;
mod number;
mod part;
mod rule;
mod side;
mod walk;

ghost use Rattle.minuska.specs.Contract.{CheckTableContract};
ghost use Rattle.table.specs.Index.{IndexTableContract};

use crate::fill::fill;
use minuska::{Index, Refusal};

// Checks a table.
pub fn check_table(table: &[i64]) -> Result<(), Refusal>
    ensures { CheckTableContract table.now result }
{
    let mut index = Index::EMPTY;
    index_table(table, &mut index)
}

// The same, and the index. `fill` is lent the rows alone: of an array that is a field behind a `&mut` no length is told, and its loop's proof starts from it.
pub fn index_table(table: &[i64], index: &mut Index) -> Result<(), Refusal>
    ensures { IndexTableContract table.now index.old.rows index.new.rows result }
{
    fill(table, &mut index.rows)
}
