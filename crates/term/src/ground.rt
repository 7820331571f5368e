// The walk over ground terms whose words are not checked yet.
ghost use Rattle.std.specs.Prelude.{◌≡◌, ◌+◌, ◌*◌, ◌≤◌, length, IfSome};
ghost use Rattle.std.specs.Option.{is_some};
ghost use Rattle.minuska.specs.Computed.Read.{max_children, plain_children};
ghost use Rattle.term.specs.TermEnd.{tag_children, GroundNode, TaggedNode, TaggedTermsAre, GroundTermsAre, ground_terms_end};

use crate::{DICTIONARY, MAX_ENTRIES, SYMBOLS, WHOLE};

// How many tags there are, those of no node too.
const TAGS: usize = 16;

// The nodes of a ground term by tag: the bound of its data, which are the numbers below, and the child count. A tag that it has none of has no datum.
// Columns, and not a list of rows: an entry is found with two instructions less. And no match by kinds: so no branch goes by the tag.
struct Nodes {
    bound: [u64; TAGS],
    children: [u8; TAGS],
}

// Read as a number without a sign, a word below 0 is above all bounds but this one, of a whole, which any word is but -1: that one is asked apart.
const WHOLES: u64 = u64::MAX;

const ERRORS: u64 = 1;

const TRUTHS: u64 = 2;

const NO_VARIABLE: u64 = 0;

const NO_CALL: u64 = 0;

const NO_NODE: u64 = 0;

// A dictionary's: its datum counts its children, so that a walk looks at it apart.
const ELSEWHERE: u64 = 0;

const SYMBOL_DATA: u64 = SYMBOLS as u64;

static NODES: Nodes = Nodes {
    bound: [
        ERRORS,
        TRUTHS,
        WHOLES,
        NO_VARIABLE,
        NO_CALL,
        ELSEWHERE,
        NO_NODE,
        NO_NODE,
        SYMBOL_DATA,
        SYMBOL_DATA,
        SYMBOL_DATA,
        SYMBOL_DATA,
        SYMBOL_DATA,
        SYMBOL_DATA,
        SYMBOL_DATA,
        SYMBOL_DATA,
    ],
    children: [0, 0, 0, 0, 0, 0, 0, 0, 0, 1, 2, 3, 4, 5, 6, 7],
};

// The child count of two words that are a node of a ground term whose tag alone says how many children it has: any but a dictionary.
pub fn tagged_children(t: i64, d: i64) -> Option<usize>
    ensures node { TaggedNode t d (is_some result) }
    ensures count { IfSome result (λ m. m ≡ tag_children t) }
{
    // no `try_from`, which costs two instructions a node here: a tag below 0 is above all others as a number without a sign
    let tag = t.cast_unsigned() as usize;
    if TAGS <= tag {
        return None;
    }
    if d.cast_unsigned() < NODES.bound[tag] {
        return Some(usize::from(NODES.children[tag]));
    }
    if t == WHOLE {
        return Some(0);
    }
    None
}

// The child count of two words that are a node of a ground term.
pub fn ground_children(t: i64, d: i64) -> Option<usize>
    ensures node { GroundNode t d (is_some result) }
    ensures count { IfSome result (λ m. m ≡ plain_children t d) }
{
    if let Some(children) = tagged_children(t, d) {
        return Some(children);
    }
    if t != DICTIONARY {
        return None;
    }
    match d {
        0..=MAX_ENTRIES => Some(2 * d as usize),
        _ => None,
    }
}

// What a walk over ground terms has taken: the place behind it, and whether a dictionary was among it.
#[derive(Clone, Copy)]
pub struct Walked {
    pub end: usize,
    pub met: bool,
}

// How far a walk by tags comes: the place behind what it took, and how many terms are still to come there.
#[derive(Clone, Copy)]
pub struct Reached {
    pub at: usize,
    pub left: usize,
}

// The walk over so many ground terms that start at a place, up to the first node that is not in range by its tag: a dictionary, or none of a ground term. A node's child count shows
// in its tag. Not one function with `ground_mixed`, which would be no plainer: this one says where it stopped, that one that no terms stand there.
pub fn tagged_terms(s: &[i64], at: usize, count: usize) -> Reached
    requires { (at ≤ length s.now) × (count ≤ max_children) }
    ensures { TaggedTermsAre s.now at count result }
{
    let n = s.len();
    let mut i = at;
    let mut k = count;
    // A while loop: where it ends is read on the way, and the place that it comes to is the answer; a range by steps would carry both beside it.
    while 0 < k {
        if n - i < 2 {
            return Reached { at: i, left: k };
        }
        let Some(m) = tagged_children(s[i], s[i + 1]) else {
            return Reached { at: i, left: k };
        };
        k = k - 1 + m;
        i += 2;
    }
    Reached { at: i, left: 0 }
}

// What the walk over so many ground terms that start at a place has taken, if they stand there. Where a dictionary is met, `ground_mixed` goes on.
pub fn ground_terms(s: &[i64], at: usize, count: usize) -> Option<Walked>
    requires { (at ≤ length s.now) × (count ≤ max_children) }
    ensures { GroundTermsAre s.now at count result }
{
    let reached = tagged_terms(s, at, count);
    if reached.left == 0 {
        return Some(Walked {
            end: reached.at,
            met: false,
        });
    }
    let end = ground_mixed(s, reached.at, reached.left)?;
    Some(Walked { end, met: true })
}

// The place behind so many ground terms, where dictionaries are met. A term is two words or more, so fewer than `2 * k` words hold no `k` terms.
fn ground_mixed(s: &[i64], at: usize, count: usize) -> Option<usize>
    requires { (at ≤ length s.now) × (count ≤ 7 * length s.now + max_children) }
    ensures { result ≡ ground_terms_end s.now at count }
{
    let n = s.len();
    let mut i = at;
    let mut k = count;
    // A while loop: where it ends is read on the way, and the place that it comes to is the answer; a range by steps would carry both beside it.
    while 0 < k {
        if n - i < 2 * k {
            return None;
        }
        k = k - 1 + ground_children(s[i], s[i + 1])?;
        i += 2;
    }
    Some(i)
}
