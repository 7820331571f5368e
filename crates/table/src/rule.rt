// One rule of a table: where its parts stand, if it is accepted.
ghost use Rattle.std.specs.Prelude.{◌≡◌};
ghost use Rattle.table.specs.Number.{answered};
ghost use Rattle.table.specs.Rule.{conditions_end, RuleIs};

use crate::index::{HEADER, RightSizes};
use crate::number::number_below;
use crate::part::{expression_part, side_part};
use minuska::limits::{MAX_ACTION, MAX_CONDITIONS};
use term::VARIABLES;

// The two sides.
const LEFT: bool = true;

const RIGHT: bool = false;

// A rule's action, the starts of its right and of its conditions, its end, and the sizes of its right.
#[derive(Clone, Copy)]
pub struct Parts {
    pub action: usize,
    pub right: usize,
    pub conditions: usize,
    pub end: usize,
    pub sizes: RightSizes,
}

// The place behind the conditions that start at a place: two expressions each.
fn conditions_end(table: &[i64], at: usize, count: usize, seen: &[bool; VARIABLES]) -> Option<usize>
    ensures { result ≡ answered (conditions_end count table.now seen.now at) }
{
    let mut end = at;
    for _ in 0..count {
        let second = expression_part(table, end, seen)?;
        end = expression_part(table, second, seen)?;
    }
    Some(end)
}

// The parts of the rule that starts at a place.
pub fn rule_parts(table: &[i64], at: usize) -> Option<Parts>
    ensures { RuleIs table.now at result }
{
    let n = table.len();
    if n < HEADER || n - HEADER < at {
        return None;
    }
    let action = number_below(MAX_ACTION + 1, table[at])?;
    let count = number_below(MAX_CONDITIONS + 1, table[at + 1])?;
    let mut seen = [false; VARIABLES];
    let left = side_part::<LEFT>(table, at + HEADER, &mut seen)?;
    let right = side_part::<RIGHT>(table, left.end, &mut seen)?;
    let end = conditions_end(table, right.end, count, &seen)?;
    Some(Parts {
        action,
        right: left.end,
        conditions: right.end,
        end,
        sizes: right.sizes,
    })
}
