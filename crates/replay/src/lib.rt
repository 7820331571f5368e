// The replay: is there a path of rule steps, none above the limit, that yields a log of actions? It relies on the step's stated answer alone.
#![tactic(auto)]

mod ending;
mod search;

ghost use Rattle.std.specs.Prelude.{◌≡◌, ◌+◌, ◌≤◌, length};
ghost use Rattle.minuska.specs.Contract.{ReplayContract};
ghost use Rattle.minuska.specs.Computed.Outcome.{replay_short};
ghost use Rattle.memory.specs.Layout.{max_room, base};
ghost use Rattle.replay.specs.Counted.{CountedContract};
ghost use Rattle.replay.specs.Standing.{Fits};
ghost use Rattle.replay.specs.Endings.{SetsUp, AcceptedContract};

use crate::search::Search;
use memory::frame;
use minuska::limits::MAX_ACTIONS;
use minuska::{Index, Refusal, ReplayAnswer};
use step::{Configuration, Game};

// What out holds, kept in the frame behind those of the log; none of these holds a configuration, but the first the initial one.
fn set_up(work: &mut [i64], out: &[i64], actions: usize, room: usize, configuration: &[i64])
    requires fits { (base room actions + (room + 2) ≤ length work.old) × (room ≤ length out.now) × (length configuration.now ≤ room) }
    requires narrow { room ≤ max_room }
    ensures { SetsUp room actions configuration.now out.now work.old work.new }
{
    words::copy(work, frame::base_at(room, actions), &out[..room]);
    memory::forget(work, room, actions);
    frame::enter(&mut work[frame::place(room, 0)], configuration);
}

// The replay of checked words, where nothing is refused before the search. `out`, `choices` and `work` are no struct: the entry point is lent them one by one, and the search uses two of them.
fn replay_accepted(
    search: &Search,
    configuration: Configuration,
    out: &mut [i64],
    choices: &mut [u16],
    work: &mut [i64],
) -> Result<Option<usize>, Refusal>
    requires fits { Fits search.now out.old work.old }
    requires small { (length configuration.words.now ≤ search.now.room) × (length search.now.log.now ≤ length choices.old) }
    ensures { AcceptedContract search.now.table.words.now configuration.entry.words.now search.now.log.now search.now.room out.old choices.old work.old out.new choices.new work.new result }
{
    let actions = search.log.len();
    if actions == 0 {
        words::copy(out, 0, configuration.words);
        words::clear(&mut work[..search.room + frame::EXTRA]);
        return Ok(Some(configuration.words.len() / 2));
    }
    set_up(work, out, actions, search.room, configuration.words);
    let found = search.find(out, work);
    ending::conclude(search, found, out, choices, work)
}

// 5: whether a lent slice is shorter than stated.
fn replay_short(log: &[u16], limit: usize, out: usize, choices: usize, work: usize) -> bool
    ensures { result ≡ replay_short limit log.now out choices work }
{
    sizes::lacks_nodes(out, limit)
        || choices < log.len()
        || sizes::lacks_frames(work, log.len() + 1, limit)
}

// The replay of checked words: refusals 3 to 5, then the search.
fn replay_checked(
    game: Game,
    log: &[u16],
    limit: usize,
    out: &mut [i64],
    choices: &mut [u16],
    work: &mut [i64],
) -> Result<Option<usize>, Refusal>
    ensures { CountedContract game.entry.table.words.now game.entry.configuration.words.now log.now limit out.old choices.old work.old out.new choices.new work.new result }
{
    let short = replay_short(log, limit, out.len(), choices.len(), work.len());
    let nodes = game.configuration.words.len() / 2;
    sizes::check_sizes(log.len(), MAX_ACTIONS, nodes, limit, short)?;
    let search = Search {
        table: game.table,
        log,
        rules: step::rule_count(game.table),
        room: 2 * limit,
        remember: true,
    };
    replay_accepted(&search, game.configuration, out, choices, work)
}

// The replay, with the node count of its last configuration where there is a path.
pub fn replay_counted(
    table: &[i64],
    configuration: &[i64],
    log: &[u16],
    limit: usize,
    out: &mut [i64],
    choices: &mut [u16],
    work: &mut [i64],
) -> Result<Option<usize>, Refusal>
    ensures { CountedContract table.now configuration.now log.now limit out.old choices.old work.old out.new choices.new work.new result }
{
    let mut index = Index::EMPTY;
    let game = step::checked(&mut index, table, configuration)?;
    replay_checked(game, log, limit, out, choices, work)
}

// Refused; reproduced; over the limit, which is refusal 6; or not reproduced. The limit is in nodes.
pub fn replay(
    table: &[i64],
    configuration: &[i64],
    log: &[u16],
    limit: usize,
    out: &mut [i64],
    choices: &mut [u16],
    work: &mut [i64],
) -> Result<ReplayAnswer, Refusal>
    ensures { ReplayContract table.now configuration.now log.now limit out.old choices.old work.old out.new choices.new work.new result }
{
    match replay_counted(table, configuration, log, limit, out, choices, work)? {
        Some(_) => Ok(ReplayAnswer::Reproduced),
        None => Ok(ReplayAnswer::NotReproduced),
    }
}
