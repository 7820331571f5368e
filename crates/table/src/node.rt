// One node of a table's terms: what its two words are, and whether a variable may stand where it stands.
ghost use Rattle.std.specs.Prelude.{◌≡◌, Option, pos, ◌≤◌, ◌<◌, length};
ghost use Rattle.minuska.specs.Computed.Read.{variable_tag, call_tag, dictionary_tag};
ghost use Rattle.minuska.specs.Word.{variables};
ghost use Rattle.table.specs.Node.{known_functions, node_of, side_level, Known, FoundAt, TakesVariable};

use crate::number::number_below;
use term::VARIABLES;
use term::ground::tagged_children;

// The functions whose codes are below have one node for a value, and take no dictionary.
const PLAIN_FUNCTIONS: usize = 15;

// The most entries of a dictionary.
const ENTRIES: usize = term::MAX_ENTRIES as usize;

// A node in range. A literal is a dictionary: what stands below it is ground.
#[derive(Clone, Copy)]
pub enum Node {
    Plain { children: usize },
    Call { children: usize, code: usize },
    Variable { number: usize },
    Literal { children: usize },
}

// What a variable's datum is, a call's, and a dictionary's.
#[tactic(auto, using(crate::proofs::NodeLaw::no_variable, crate::proofs::NodeLaw::a_variable_lem))]
fn variable(d: i64) -> Option<Node>
    ensures { result ≡ node_of (pos variable_tag) d }
{
    let number = number_below(VARIABLES, d)?;
    Some(Node::Variable { number })
}

// How many functions are known.
fn functions<const MIXED: bool>() -> usize
    ensures { result ≡ known_functions MIXED }
{
    if MIXED {
        term::FUNCTIONS
    } else {
        PLAIN_FUNCTIONS
    }
}

fn call<const MIXED: bool>(d: i64) -> Option<Node>
    ensures { Known MIXED (pos call_tag) d result }
{
    let code = number_below(functions::<MIXED>(), d)?;
    let children = term::children(term::CALL, d);
    Some(Node::Call { children, code })
}

// Not by `term::ground::ground_children`, which says how many words of a ground node follow for any tag: its contract (`GroundNode`) would have to be brought back to `node_of` of this one.
#[tactic(auto, using(crate::proofs::NodeLaw::no_dictionary, crate::proofs::NodeLaw::a_dictionary))]
fn dictionary(d: i64) -> Option<Node>
    ensures { result ≡ node_of (pos dictionary_tag) d }
{
    let entries = number_below(ENTRIES + 1, d)?;
    Some(Node::Literal {
        children: 2 * entries,
    })
}

// What two words are. Unless `MIXED`, dictionaries and calls of functions on them are not known.
#[tactic(auto, using(crate::proofs::NodeLaw::known))]
fn classify<const MIXED: bool>(t: i64, d: i64) -> Option<Node>
    ensures { Known MIXED t d result }
{
    if MIXED && t == term::DICTIONARY {
        return dictionary(d);
    }
    if t == term::VARIABLE {
        return variable(d);
    }
    if t == term::CALL {
        return call::<MIXED>(d);
    }
    let children = tagged_children(t, d)?;
    Some(Node::Plain { children })
}

// The node at a place; none where two words are not left.
pub fn node_at<const MIXED: bool>(table: &[i64], i: usize) -> Option<Node>
    requires { i ≤ length table.now }
    ensures { FoundAt MIXED table.now i result }
{
    if table.len() - i < 2 {
        return None;
    }
    classify::<MIXED>(table[i], table[i + 1])
}

// A left's variable is flagged; a right's must have been.
pub fn takes_variable<const LEFT: bool>(v: usize, seen: &mut [bool; VARIABLES]) -> bool
    requires { v < variables }
    ensures { TakesVariable (side_level LEFT) v seen.old seen.new result }
{
    if LEFT {
        seen[v] = true;
        return true;
    }
    seen[v]
}
