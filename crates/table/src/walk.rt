// One term of a rule, if it has at most 512 nodes and its dictionaries are in order.
ghost use Rattle.table.specs.Node.{side_level};
ghost use Rattle.table.specs.Part.{Ending, TermIs, ExpressionIs, SideFound};

use crate::expression::expressions_end;
use crate::index::RightSizes;
use crate::side::side_end;
use minuska::limits::MAX_TERM_WORDS;
use term::VARIABLES;
use term::order::in_order;

// The place behind a side, and its sizes: how many nodes it gives for certain, and how many terms of a match.
#[derive(Clone, Copy)]
pub struct Measured {
    pub end: usize,
    pub sizes: RightSizes,
}

// Whether what was walked is a term: it is no longer than one, and its dictionaries, if any was met, are in order.
fn is_term(table: &[i64], at: usize, end: usize, met: bool) -> bool
    requires { Ending table.now at end met }
    ensures { TermIs table.now at end result }
{
    if MAX_TERM_WORDS < end - at {
        return false;
    }
    !met || in_order(table, at, end)
}

// The place behind the expression that starts at a place.
pub fn expression<const MIXED: bool>(
    table: &[i64],
    at: usize,
    seen: &[bool; VARIABLES],
) -> Option<usize>
    ensures { ExpressionIs MIXED table.now at seen.now result }
{
    if table.len() < at {
        return None;
    }
    let walked = expressions_end::<MIXED>(table, at, 1, seen)?;
    if !is_term(table, at, walked.end, walked.met) {
        return None;
    }
    Some(walked.end)
}

// The place behind the side that starts at a place, and its sizes. Apart from `expression`: a side has sizes, flags variables, and takes a call with all its arguments at one turn.
pub fn side<const LEFT: bool, const MIXED: bool>(
    table: &[i64],
    at: usize,
    seen: &mut [bool; VARIABLES],
) -> Option<Measured>
    ensures { SideFound MIXED table.now at (side_level LEFT) seen.old seen.new result }
{
    if table.len() < at {
        return None;
    }
    let walked = side_end::<LEFT, MIXED>(table, at, seen)?;
    if !is_term(table, at, walked.end, walked.met) {
        return None;
    }
    Some(Measured {
        end: walked.end,
        sizes: walked.sizes,
    })
}
