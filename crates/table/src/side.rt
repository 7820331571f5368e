// A rule's left and right: symbols over symbols, dictionaries, variables and, in a right, calls.
ghost use Rattle.std.specs.Prelude.{◌≡◌, ◌≤◌, length};
ghost use Rattle.minuska.specs.Bridge.Walk.{fixed_call, leaves_call};
ghost use Rattle.table.specs.Level.{Right};
ghost use Rattle.table.specs.Node.{side_level, KnownAt};
ghost use Rattle.table.specs.Size.{LiteralTurnIs, SideTurnIs, SideIs};
ghost use Rattle.table.specs.declared.node.Node.TheVariants as N;

use crate::expression::{expressions_end, ground_end};
use crate::index::RightSizes;
use crate::node::{Node, node_at, takes_variable};
use term::{LOOKUP, UPDATE, VARIABLES};

// What one turn of a side's walk comes to: the place behind what it took, how many more terms are to come, the sizes of what it took, and whether it met a dictionary.
#[derive(Clone, Copy)]
pub struct SideTurn {
    pub end: usize,
    pub more: usize,
    pub sizes: RightSizes,
    pub met: bool,
}

// The place behind a side, its sizes, and whether a dictionary is in it.
#[derive(Clone, Copy)]
pub struct SideEnd {
    pub end: usize,
    pub sizes: RightSizes,
    pub met: bool,
}

// The sizes of a call's value: of an update, a dictionary of one with an entry more; of a lookup, a term of the configuration; of any other, one node. Tests and no match on the code, which
// was compiled to branches: it took 170,063 instructions for a table of 200 rules with an update and a lookup each, this takes 167,064.
fn call_sizes(code: usize) -> RightSizes
    ensures ones { result.fixed ≡ fixed_call code }
    ensures variables { result.leaves ≡ leaves_call code }
{
    if code == UPDATE {
        return RightSizes {
            fixed: 2,
            leaves: 2,
        };
    }
    let leaves = usize::from(code == LOOKUP);
    RightSizes {
        fixed: 1 - leaves,
        leaves,
    }
}

// A call of a right with the arguments below it, which are expressions.
fn call_turn<const MIXED: bool>(
    table: &[i64],
    i: usize,
    children: usize,
    code: usize,
    seen: &[bool; VARIABLES],
) -> Option<SideTurn>
    requires { KnownAt MIXED table.now i (N.Call children code) }
    ensures { SideTurnIs MIXED table.now Right i seen.now seen.now result }
{
    let below = expressions_end::<MIXED>(table, i + 2, children, seen)?;
    Some(SideTurn {
        end: below.end,
        more: 0,
        sizes: call_sizes(code),
        met: below.met,
    })
}

// A dictionary with all that is below it.
fn literal_turn<const MIXED: bool>(table: &[i64], i: usize, children: usize) -> Option<SideTurn>
    requires { KnownAt MIXED table.now i (N.Literal children) }
    ensures { LiteralTurnIs MIXED table.now i result }
{
    let below = ground_end::<MIXED>(table, i + 2, children)?;
    Some(SideTurn {
        end: below.end,
        more: 0,
        sizes: RightSizes {
            fixed: (below.end - i) / 2,
            leaves: 0,
        },
        met: true,
    })
}

// One side's first node, with the arguments below it if it is a call, with its entries if it is a dictionary. A symbol's children are still to come.
fn side_turn<const LEFT: bool, const MIXED: bool>(
    table: &[i64],
    i: usize,
    seen: &mut [bool; VARIABLES],
) -> Option<SideTurn>
    requires { i ≤ length table.now }
    ensures { SideTurnIs MIXED table.now (side_level LEFT) i seen.old seen.new result }
{
    match node_at::<MIXED>(table, i)? {
        Node::Plain { children } => Some(SideTurn {
            end: i + 2,
            more: children,
            sizes: RightSizes {
                fixed: 1,
                leaves: 0,
            },
            met: false,
        }),
        Node::Literal { children } => literal_turn::<MIXED>(table, i, children),
        Node::Call { .. } if LEFT => None,
        Node::Call { children, code } => call_turn::<MIXED>(table, i, children, code, seen),
        Node::Variable { number } => {
            if !takes_variable::<LEFT>(number, seen) {
                return None;
            }
            Some(SideTurn {
                end: i + 2,
                more: 0,
                sizes: RightSizes {
                    fixed: 0,
                    leaves: 1,
                },
                met: false,
            })
        }
    }
}

// The place behind the side that starts at a place, its sizes, and whether a dictionary is in it.
pub fn side_end<const LEFT: bool, const MIXED: bool>(
    table: &[i64],
    at: usize,
    seen: &mut [bool; VARIABLES],
) -> Option<SideEnd>
    requires { at ≤ length table.now }
    ensures { SideIs MIXED table.now (side_level LEFT) at seen.old seen.new result }
{
    let mut i = at;
    let mut k: usize = 1;
    let mut sizes = RightSizes {
        fixed: 0,
        leaves: 0,
    };
    let mut met = false;
    // A while loop: how many terms are to come is read on the way, and so is where the next begins.
    while 0 < k {
        let turn = side_turn::<LEFT, MIXED>(table, i, seen)?;
        i = turn.end;
        sizes.fixed += turn.sizes.fixed;
        sizes.leaves += turn.sizes.leaves;
        k = k - 1 + turn.more;
        met |= turn.met;
    }
    Some(SideEnd { end: i, sizes, met })
}
