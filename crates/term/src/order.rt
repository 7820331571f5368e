// Whether dictionaries are in order: "keys being whole numbers in strictly rising order".
ghost use Rattle.term.specs.Order.{Filled, InOrder, EntriesAt, Rises};

use crate::{DICTIONARY, WHOLE, ground_end};

// Whether every dictionary among terms that stand from a place up to another is in order. Each node is looked at once; at a dictionary its entries are walked, and so each of
// its values but the last once more. In a nest of first values an inner node is walked for every dictionary around it: there the cost is quadratic.
pub fn in_order(s: &[i64], from: usize, to: usize) -> bool
    requires { Filled s.now from to }
    ensures { InOrder s.now from to result }
{
    for i in (from..to).step_by(2) {
        if s[i] == DICTIONARY && !rises(s, i + 2, s[i + 1] as usize) {
            return false;
        }
    }
    true
}

// Whether the keys of so many entries that start at a place are whole numbers in strictly rising order. The last value is not walked.
fn rises(s: &[i64], at: usize, count: usize) -> bool
    requires { EntriesAt s.now at count }
    ensures { Rises s.now at count result }
{
    if count == 0 {
        return true;
    }
    if s[at] != WHOLE {
        return false;
    }
    let mut i = at;
    for _ in 1..count {
        let next = ground_end(s, i + 2);
        if s[next] != WHOLE || s[next + 1] <= s[i + 1] {
            return false;
        }
        i = next;
    }
    true
}
