// The run (document 01): the step repeated, its count held against a budget. Two lent slices take turns: each step reads one and writes the other.
#![tactic(auto)]

ghost use Rattle.std.specs.Prelude.{◌≡◌, ◌*◌, ◌/◌, ◌≤◌, length, take, Ok};
ghost use Rattle.minuska.specs.Contract.{RunContract};
ghost use Rattle.minuska.specs.Slice.{write};
ghost use Rattle.minuska.specs.Computed.Outcome.{step_outcome, run_short};
ghost use Rattle.run.specs.Sides.{by_side, other, StartsWith, StepsInto, StepsAcross, judged};
ghost use Rattle.run.specs.Allowed.{Allowed};
ghost use Rattle.run.specs.Ending.{RunEnds, Finishes};

use minuska::limits::MAX_STEPS;
use minuska::{Index, Refusal, RunAnswer, Stepped};
use std::ops::ControlFlow;
use step::{Configuration, Game, Table};

// Where the current configuration stands: as it was given, in out, or in spare.
#[derive(Clone, Copy)]
enum Side {
    Initial,
    Out,
    Spare,
}

// The current configuration: where it stands, and its nodes.
#[derive(Clone, Copy)]
struct Current {
    side: Side,
    nodes: usize,
}

// The answer, and the last configuration.
#[derive(Clone, Copy)]
struct Ended {
    answer: RunAnswer,
    last: Current,
}

// The side that a step from this one writes.
fn other_side(side: Side) -> Side
    ensures { result ≡ other side }
{
    match side {
        Side::Initial => Side::Out,
        Side::Out => Side::Spare,
        Side::Spare => Side::Out,
    }
}

// The step of the configuration at the start of one slice, written into the first words of another.
fn step_into<'a>(
    table: Table<'a>,
    from: &'a [i64],
    nodes: usize,
    to: &mut [i64],
    words: usize,
) -> Result<Option<Stepped>, Refusal>
    requires { StartsWith from.now nodes × (words ≤ length to.old) }
    ensures { StepsInto (step_outcome table.entry.words.now (take (2 * nodes) from.now) words) words to.old to.new result }
{
    let configuration = Configuration {
        words: &from[..2 * nodes],
    };
    Game {
        table,
        configuration,
    }
    .earliest(&mut to[..words])
}

// The step of the current configuration, written into the slice whose turn it is.
fn step_across(
    game: Game,
    current: Current,
    words: usize,
    out: &mut [i64],
    spare: &mut [i64],
) -> Result<Option<Stepped>, Refusal>
    requires { StartsWith (by_side current.side game.configuration.words.now out.old spare.old) current.nodes × (words ≤ length out.old) × (words ≤ length spare.old) }
    ensures { StepsAcross game.entry.table.words.now game.entry.configuration.words.now current.side current.nodes words out.old spare.old out.new spare.new result }
{
    match current.side {
        Side::Initial => step_into(
            game.table,
            game.configuration.words,
            current.nodes,
            out,
            words,
        ),
        Side::Out => step_into(game.table, out, current.nodes, spare, words),
        Side::Spare => step_into(game.table, spare, current.nodes, out, words),
    }
}

// What a step's answer comes to after k steps: on, with a successor of so many nodes, or the end. At the budget's end a rule that applies, whatever its
// successor's size, is spent.
fn judge(
    answer: Result<Option<Stepped>, Refusal>,
    k: usize,
    budget: usize,
) -> ControlFlow<RunAnswer, usize>
    ensures { result ≡ judged answer k budget }
{
    match answer {
        Ok(Some(stepped)) if k < budget => ControlFlow::Continue(stepped.nodes),
        Ok(None) => ControlFlow::Break(RunAnswer::Stuck(k)),
        Err(_) if k < budget => ControlFlow::Break(RunAnswer::Over(k)),
        _ => ControlFlow::Break(RunAnswer::Spent(k)),
    }
}

// The steps, up to the end. `out`, `spare`, `budget` and `limit` are no struct: the entry point is lent them one by one, each step reads one slice and writes the other,
// and a budget counts steps where a limit counts nodes.
fn advance(game: Game, budget: usize, limit: usize, out: &mut [i64], spare: &mut [i64]) -> Ended
    requires { Allowed (length game.configuration.words.now / 2) budget limit (length out.old) (length spare.old) }
    ensures { RunEnds game.entry.table.words.now game.entry.configuration.words.now budget limit out.old spare.old out.new spare.new result }
{
    let words = 2 * limit;
    let mut current = Current {
        side: Side::Initial,
        nodes: game.configuration.words.len() / 2,
    };
    for k in 0..=budget {
        let answer = step_across(game, current, words, out, spare);
        match judge(answer, k, budget) {
            ControlFlow::Continue(nodes) => {
                current = Current {
                    side: other_side(current.side),
                    nodes,
                };
            }
            ControlFlow::Break(answer) => {
                return Ended {
                    answer,
                    last: current,
                };
            }
        }
    }
    unreachable!()
}

// The last configuration is brought to the start of out, if it does not stand there.
fn bring(last: Current, configuration: &[i64], out: &mut [i64], spare: &[i64])
    requires { (2 * last.nodes ≤ length (by_side last.side configuration.now out.old spare.now)) × (2 * last.nodes ≤ length out.old) }
    ensures { out.new ≡ write (take (2 * last.nodes) (by_side last.side configuration.now out.old spare.now)) out.old }
{
    let end = 2 * last.nodes;
    match last.side {
        Side::Initial => words::copy(out, 0, &configuration[..end]),
        Side::Out => {}
        Side::Spare => words::copy(out, 0, &spare[..end]),
    }
}

// What a run leaves: the last configuration and zeros in out, zeros in spare.
fn finish(last: Current, words: usize, configuration: &[i64], out: &mut [i64], spare: &mut [i64])
    requires { (2 * last.nodes ≤ length (by_side last.side configuration.now out.old spare.old)) × (2 * last.nodes ≤ words) × (words ≤ length out.old) × (words ≤ length spare.old) }
    ensures { Finishes words (take (2 * last.nodes) (by_side last.side configuration.now out.old spare.old)) out.old spare.old out.new spare.new }
{
    bring(last, configuration, out, spare);
    let end = 2 * last.nodes;
    words::clear(&mut out[end..words]);
    words::clear(&mut spare[..words]);
}

// 5: whether a lent slice does not hold the limit's nodes.
fn run_short(limit: usize, out: usize, spare: usize) -> bool
    ensures { result ≡ run_short limit out spare }
{
    sizes::lacks_nodes(out, limit) || sizes::lacks_nodes(spare, limit)
}

// The run of checked words, where nothing is refused. A function on checked words, for crates above.
pub fn run_accepted(
    game: Game,
    budget: usize,
    limit: usize,
    out: &mut [i64],
    spare: &mut [i64],
) -> RunAnswer
    requires { Allowed (length game.configuration.words.now / 2) budget limit (length out.old) (length spare.old) }
    ensures { RunContract game.entry.table.words.now game.entry.configuration.words.now budget limit out.old spare.old out.new spare.new (Ok result) }
{
    let ended = advance(game, budget, limit, out, spare);
    finish(ended.last, 2 * limit, game.configuration.words, out, spare);
    ended.answer
}

// The run of checked words: refusals 3 to 5, then the steps.
fn run_checked(
    game: Game,
    budget: usize,
    limit: usize,
    out: &mut [i64],
    spare: &mut [i64],
) -> Result<RunAnswer, Refusal>
    ensures { RunContract game.entry.table.words.now game.entry.configuration.words.now budget limit out.old spare.old out.new spare.new result }
{
    let nodes = game.configuration.words.len() / 2;
    let short = run_short(limit, out.len(), spare.len());
    sizes::check_sizes(budget, MAX_STEPS, nodes, limit, short)?;
    Ok(run_accepted(game, budget, limit, out, spare))
}

// The run: a budget of steps, a limit in nodes, out and spare of at least twice as many words.
pub fn run(
    table: &[i64],
    configuration: &[i64],
    budget: usize,
    limit: usize,
    out: &mut [i64],
    spare: &mut [i64],
) -> Result<RunAnswer, Refusal>
    ensures { RunContract table.now configuration.now budget limit out.old spare.old out.new spare.new result }
{
    let mut index = Index::EMPTY;
    let game = step::checked(&mut index, table, configuration)?;
    run_checked(game, budget, limit, out, spare)
}
