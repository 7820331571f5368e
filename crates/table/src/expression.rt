// Expressions: variables that were flagged, calls but no updates, and symbols and dictionaries over ground terms.
ghost use Rattle.std.specs.Prelude.{◌≤◌, length};
ghost use Rattle.minuska.specs.Computed.Read.{max_children};
ghost use Rattle.table.specs.Level.{Expression};
ghost use Rattle.table.specs.Reach.{EndIs, GroundEndIs, TurnIs};

use crate::node::{Node, node_at};
use term::ground::{Walked, ground_terms, tagged_terms};
use term::{UPDATE, VARIABLES};

// What one turn of a walk over terms comes to: the place behind what it took, how many more terms of its level are to come, and whether it met a dictionary.
#[derive(Clone, Copy)]
pub struct Turn {
    pub end: usize,
    pub more: usize,
    pub met: bool,
}

// What the walk over so many ground terms that start at a place has taken.
pub fn ground_end<const MIXED: bool>(table: &[i64], at: usize, count: usize) -> Option<Walked>
    requires { (at ≤ length table.now) × (count ≤ max_children) }
    ensures { GroundEndIs MIXED table.now at count result }
{
    if MIXED {
        return ground_terms(table, at, count);
    }
    let reached = tagged_terms(table, at, count);
    if reached.left != 0 {
        return None;
    }
    Some(Walked {
        end: reached.at,
        met: false,
    })
}

// One expression's first node, with the ground terms below it. A call's arguments are expressions still to come.
#[inline(always)]
fn expression_turn<const MIXED: bool>(
    table: &[i64],
    i: usize,
    seen: &[bool; VARIABLES],
) -> Option<Turn>
    requires { i ≤ length table.now }
    ensures { TurnIs MIXED table.now Expression i seen.now seen.now result }
{
    match node_at::<MIXED>(table, i)? {
        Node::Plain { children } => {
            let below = ground_end::<MIXED>(table, i + 2, children)?;
            Some(Turn {
                end: below.end,
                more: 0,
                met: below.met,
            })
        }
        Node::Literal { children } => {
            let below = ground_end::<MIXED>(table, i + 2, children)?;
            Some(Turn {
                end: below.end,
                more: 0,
                met: true,
            })
        }
        Node::Call { code: UPDATE, .. } => None,
        Node::Call { children, .. } => Some(Turn {
            end: i + 2,
            more: children,
            met: false,
        }),
        Node::Variable { number } if seen[number] => Some(Turn {
            end: i + 2,
            more: 0,
            met: false,
        }),
        Node::Variable { .. } => None,
    }
}

// The place behind so many expressions that start at a place, and whether a dictionary is among them.
#[inline(always)]
pub fn expressions_end<const MIXED: bool>(
    table: &[i64],
    at: usize,
    count: usize,
    seen: &[bool; VARIABLES],
) -> Option<Walked>
    requires { (at ≤ length table.now) × (count ≤ max_children) }
    ensures { EndIs MIXED table.now Expression at count seen.now seen.now result }
{
    let mut i = at;
    let mut k = count;
    let mut met = false;
    // A while loop: how many terms are to come is read on the way, and so is where the next begins.
    while 0 < k {
        let turn = expression_turn::<MIXED>(table, i, seen)?;
        i = turn.end;
        k = k - 1 + turn.more;
        met |= turn.met;
    }
    Some(Walked { end: i, met })
}
