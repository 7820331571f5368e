// The rows of a table's index: how one is made, and what it says of its rule.
ghost use Rattle.std.specs.Prelude.{◌≡◌, ◌+◌, ◌-◌, ◌≤◌};
ghost use Rattle.minuska.specs.Bridge.Place.{first_rule};
ghost use Rattle.table.specs.Index.{row_of, RowFits};

use crate::key::key;
use crate::rule::Parts;
use minuska::Row;

// The word at which the first rule stands, behind the rule count: places are counted from there.
pub const FIRST_RULE: usize = 1;

// A rule's header words, in front of its left: its action and its condition count.
pub const HEADER: usize = 2;

// The sizes of a right: how many of its nodes give one node each, and how many are variables.
#[derive(Clone, Copy)]
pub struct RightSizes {
    pub fixed: usize,
    pub leaves: usize,
}

// A place from its number, and the number of a place; no `From`, since a number counts from the first rule's place.
pub(crate) fn place(number: u16) -> usize
    ensures { result ≡ number + first_rule }
{
    usize::from(number) + FIRST_RULE
}

fn placed(place: usize) -> u16
    requires { (first_rule ≤ place) × (place ≤ 65536) }
    ensures { result ≡ place - first_rule }
{
    (place - FIRST_RULE) as u16
}

// The row of a rule that starts at a place.
pub(crate) fn row_from(table: &[i64], at: usize, parts: Parts) -> Row
    requires { RowFits table.now at parts }
    ensures { result ≡ row_of table.now at parts }
{
    let left = at + HEADER;
    Row {
        left: placed(left),
        right: placed(parts.right),
        conditions: placed(parts.conditions),
        end: placed(parts.end),
        key: key(table[left], table[left + 1]),
        action: parts.action as u16,
        fixed: parts.sizes.fixed as u16,
        leaves: parts.sizes.leaves as u16,
    }
}
