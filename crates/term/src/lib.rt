// Terms in words: a node's child count, the end of a term, the configuration check, the part that is a subterm.
#![tactic(auto)]

ghost use Rattle.std.specs.Prelude.{◌≡◌, ◌<◌, length};
ghost use Rattle.std.proofs.Math.Option.{some};
ghost use Rattle.minuska.specs.Bridge.Place.{GroundAt, GroundEnds};
ghost use Rattle.minuska.specs.Computed.Read.{plain_children};
ghost use Rattle.minuska.specs.Contract.{CheckConfigurationContract, SubtermContract};
ghost use Rattle.minuska.specs.Function.{functions};
ghost use Rattle.term.specs.TermAt.{TermAt, TermEnds, NodeWords};
ghost use Rattle.term.specs.TermEnd.{arity_of, children_of, children_if, tag_children, walked, WalkedNode, TermsAt, TermsEnd};

use minuska::limits::MAX_CONFIGURATION_WORDS;

pub mod configuration;
pub mod ground;
pub mod order;
pub mod places;

use crate::ground::ground_terms;
use crate::order::in_order;
use minuska::Refusal;

// Document 01's table of nodes, with document 02's dictionaries: its tags, a symbol's the one with no children, and how many variables, functions and symbols there are.
// Words and no enum: a symbol's tag counts its children, so that an enum would have a field, and the walks compare words with them.
pub const ERROR: i64 = 0;

pub const TRUTH: i64 = 1;

pub const WHOLE: i64 = 2;

pub const VARIABLE: i64 = 3;

pub const CALL: i64 = 4;

pub const DICTIONARY: i64 = 5;

pub const SYMBOL: i64 = 8;

pub const VARIABLES: usize = 16;

pub const FUNCTIONS: usize = 18;

// The codes of map.lookup and map.update, whose values are not one node.
pub const LOOKUP: usize = 16;

pub const UPDATE: usize = 17;

pub const SYMBOLS: i64 = 4096;

// "the entry count, 0 to 64"
pub const MAX_ENTRIES: i64 = 64;

// A part of a slice of words: from one place up to another. No `Range`, which is not Copy: values and parts are handed on by copy. And a slice and a place in it, not the rest of the slice: places are
// counted from its start, in the index and in the answers.
#[derive(Clone, Copy)]
pub struct Span {
    pub from: usize,
    pub to: usize,
}

// The arity of a function, by its code: document 01's table has a row for each number.
#[tactic(auto, unfolding(crate::specs::TermEnd::arity_of))]
pub fn arity(code: usize) -> usize
    requires { code < length functions }
    ensures { result ≡ arity_of code }
{
    match code {
        0 => 0, // bool.true
        1 => 0, // bool.false
        2 => 1, // bool.neg
        6 => 1, // bool.is
        7 => 1, // z.is
        14 => 3, // z.share
        15 => 0, // map.empty
        17 => 3, // map.update
        _ => 2,
    }
}

// The child count of a node, from its two words.
#[tactic(auto, using(crate::proofs::ChildrenLaw::other_node, crate::proofs::ChildrenLaw::call_node))]
pub fn children(t: i64, d: i64) -> usize
    requires { NodeWords t d }
    ensures { result ≡ children_of t d }
{
    if t == CALL {
        return arity(d as usize);
    }
    plain_children(t, d)
}

// The same of a node that is no call, which is not asked here: the walks over ground terms meet none. A dictionary has two children an entry.
#[tactic(auto, using(crate::proofs::NodeLaw::plain_by_tag, crate::proofs::NodeLaw::dictionary_words), unfolding(minuska::specs::Computed::Read::plain_children))]
pub fn plain_children(t: i64, d: i64) -> usize
    requires { NodeWords t d }
    ensures { result ≡ plain_children t d }
{
    if t == DICTIONARY {
        return 2 * d as usize;
    }
    tag_children(t)
}

// What a tag says by itself: "0", "tag minus 8".
#[tactic(auto, unfolding(crate::specs::TermEnd::tag_children))]
pub fn tag_children(t: i64) -> usize
    ensures { result ≡ tag_children t }
{
    if t < SYMBOL { 0 } else { (t - SYMBOL) as usize }
}

// The place behind the ground term that stands at a place.
pub fn ground_end(s: &[i64], at: usize) -> usize
    requires { GroundAt s.now at }
    ensures { GroundEnds s.now at result }
{
    term_end::<false>(s, at)
}

// The place behind the term that stands at a place, which may have variables and calls.
pub fn expression_end(s: &[i64], at: usize) -> usize
    requires { TermAt s.now at }
    ensures { TermEnds s.now at result }
{
    term_end::<true>(s, at)
}

// The place behind the term that stands at a place, which has variables and calls only if `ANY`. Most are a node without children, whose end is told here; the walk over what is below
// another is not inlined: so it is compiled once, and the loops that ask for an end stay small.
fn term_end<const ANY: bool>(s: &[i64], at: usize) -> usize
    requires { TermsAt (walked ANY) s.now at 1 }
    ensures { TermsEnd (walked ANY) s.now at 1 result }
{
    let children = walked_children::<ANY>(s[at], s[at + 1]);
    if children == 0 {
        return at + 2;
    }
    terms_end::<ANY>(&s[..], at + 2, children)
}

// The place behind so many terms that stand at a place, which have variables and calls only if `ANY`. At the first dictionary `mixed_end` goes on: with that loop alone a step that walks over
// 30,000 nodes takes 1.05 times as long, unary factorial 1.10. No iterator fits: where the walk ends is read on the way, and the place that it comes to is the answer.
#[inline(never)]
fn terms_end<const ANY: bool>(s: &[i64], at: usize, count: usize) -> usize
    requires { TermsAt (walked ANY) s.now at count }
    ensures { TermsEnd (walked ANY) s.now at count result }
{
    let mut i = at;
    let mut k = count;
    while 0 < k {
        let t = s[i];
        if t == DICTIONARY {
            return mixed_end::<ANY>(s, i, k);
        }
        k = k - 1 + walked_children::<ANY>(t, s[i + 1]);
        i += 2;
    }
    i
}

// The same where dictionaries are met; a while loop for the same reason.
fn mixed_end<const ANY: bool>(s: &[i64], at: usize, count: usize) -> usize
    requires { TermsAt (walked ANY) s.now at count }
    ensures { TermsEnd (walked ANY) s.now at count result }
{
    let mut i = at;
    let mut k = count;
    while 0 < k {
        k = k - 1 + walked_children::<ANY>(s[i], s[i + 1]);
        i += 2;
    }
    i
}

// The child count of a node that such a walk meets.
fn walked_children<const ANY: bool>(t: i64, d: i64) -> usize
    requires { WalkedNode (walked ANY) t d }
    ensures { children_if (walked ANY) t d ≡ some result }
{
    if ANY {
        children(t, d)
    } else {
        plain_children(t, d)
    }
}

// Whether the words are exactly one configuration.
pub fn check_configuration(words: &[i64]) -> Result<(), Refusal>
    ensures { CheckConfigurationContract words.now result }
{
    let n = words.len();
    if MAX_CONFIGURATION_WORDS < n {
        return Err(Refusal::BadConfiguration);
    }
    let walked = ground_terms(words, 0, 1).ok_or(Refusal::BadConfiguration)?;
    if walked.end != n {
        return Err(Refusal::BadConfiguration);
    }
    if walked.met && !in_order(words, 0, n) {
        return Err(Refusal::BadConfiguration);
    }
    Ok(())
}

// The part that is the subterm at a place, a node's number in preorder; empty if there is none, or no configuration.
pub fn subterm(words: &[i64], place: usize) -> &[i64]
    ensures { SubtermContract words.now place result.now }
{
    if words.len() / 2 <= place || check_configuration(words).is_err() {
        return &words[..0];
    }
    let s = 2 * place;
    let e = ground_end(words, s);
    &words[s..e]
}
