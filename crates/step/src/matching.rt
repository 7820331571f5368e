// Matching a left against a configuration, in one walk over both.
ghost use Rattle.std.specs.Prelude.{◌≡◌, ◌≤◌, length};
ghost use Rattle.step.specs.Matching.{LeftIn, MatchContract, TurnFrom, LeftTurned, Recurs};

use term::Span;
use term::configuration::Configuration;
use term::places::Places;

// What a node of a left finds at the configuration's term that the walk has come to, if it agrees.
#[derive(Clone, Copy)]
pub enum LeftTurn {
    // the same node
    Same,
    // a variable that has no part yet: its number, and the end of the term, which is its part
    Bind(usize, usize),
    // a variable whose part has the term's words: the end of the term
    Again(usize),
}

// One turn of the walk: the left's node at word i of the table against the configuration's term at word j.
// At the left's last node one term of the configuration is still to come, so it is all the rest, and its end is known without a walk over it.
fn turn_at(
    table: &[i64],
    i: usize,
    end: usize,
    configuration: &[i64],
    j: usize,
    places: &Places,
) -> Option<LeftTurn>
    requires { TurnFrom table.now i end configuration.now j places.now.starts places.now.ends }
    ensures { LeftTurned table.now i end configuration.now j places.now.starts places.now.ends result }
{
    let tag = table[i];
    let datum = table[i + 1];
    if tag != term::VARIABLE {
        if tag != configuration[j] || datum != configuration[j + 1] {
            return None;
        }
        return Some(LeftTurn::Same);
    }
    let v = datum as usize;
    let Some(part) = places.get(v) else {
        if i + 2 == end {
            return Some(LeftTurn::Bind(v, configuration.len()));
        }
        return Some(LeftTurn::Bind(v, term::ground_end(configuration, j)));
    };
    let to = recurs(configuration, part, j)?;
    Some(LeftTurn::Again(to))
}

// Whether the words of a part stand at a place again: the place behind them. Not inlined, so that the walk keeps its registers for the nodes that are no variable's.
#[inline(never)]
fn recurs(words: &[i64], part: Span, at: usize) -> Option<usize>
    requires { (part.from ≤ part.to) × (part.to ≤ length words.now) × (at ≤ length words.now) }
    ensures { Recurs words.now part.from part.to at result }
{
    let to = at + (part.to - part.from);
    if words.len() < to {
        return None;
    }
    words::same(&words[part.from..part.to], &words[at..to]).then_some(to)
}

// Matches a left against the whole configuration, up to the first of its nodes that disagrees: its place, from 0 in preorder. The parts of its variables go to places.
pub fn match_left(
    table: &[i64],
    left: Span,
    configuration: Configuration,
    places: &mut Places,
) -> Result<(), usize>
    requires { LeftIn table.now left.from left.to }
    ensures { MatchContract table.now left.from left.to configuration.entry.words.now places.old.starts places.new.starts places.new.ends result }
{
    places.clear();
    let words = configuration.words;
    let mut j: usize = 0;
    // The left goes on by a node, the configuration by a node or a term. Over the nodes: over the words, by `step_by(2)`, a rule takes 1,000 instructions for 830 (200 reel
    // rules that disagree at the last node).
    for node in 0..(left.to - left.from) / 2 {
        let i = left.from + 2 * node;
        let Some(turn) = turn_at(table, i, left.to, words, j, places) else {
            return Err(node);
        };
        match turn {
            LeftTurn::Same => j += 2,
            LeftTurn::Bind(v, to) => {
                places.set(v, Span { from: j, to });
                j = to;
            }
            LeftTurn::Again(to) => j = to,
        }
    }
    Ok(())
}
