// One part of a rule. Most have no dictionary, and are found by a walk that knows none; where it finds nothing, which says nothing, the other walk looks.
ghost use Rattle.std.specs.Prelude.{◌≡◌, true};
ghost use Rattle.table.specs.Level.{Expression};
ghost use Rattle.table.specs.Node.{side_level, unseen};
ghost use Rattle.table.specs.Number.{answered};
ghost use Rattle.table.specs.Size.{SidePartContract};
ghost use Rattle.table.specs.Walk.{part_end};

use crate::walk::{Measured, expression, side};
use term::VARIABLES;

// The two walks: one that knows no dictionary, and one that does.
const PLAIN: bool = false;

const MIXED: bool = true;

// The place behind the left or the right that starts at a place, and its sizes. The first walk may have flagged some of a left's variables.
pub fn side_part<const LEFT: bool>(
    table: &[i64],
    at: usize,
    seen: &mut [bool; VARIABLES],
) -> Option<Measured>
    requires { LEFT ≡ true → seen.old ≡ unseen }
    ensures { SidePartContract table.now at (side_level LEFT) seen.old seen.new result }
{
    let plain = side::<LEFT, PLAIN>(table, at, seen);
    if plain.is_some() {
        return plain;
    }
    if LEFT {
        *seen = [false; VARIABLES];
    }
    side::<LEFT, MIXED>(table, at, seen)
}

// The place behind the expression that starts at a place.
pub fn expression_part(table: &[i64], at: usize, seen: &[bool; VARIABLES]) -> Option<usize>
    ensures { result ≡ answered (part_end table.now at Expression seen.now) }
{
    expression::<PLAIN>(table, at, seen).or_else(|| expression::<MIXED>(table, at, seen))
}
