// The search has ended: its answer, in the slices that are lent for it.
ghost use Rattle.std.specs.Prelude.{◌≡◌, ◌++◌, ℕ, pred, ◌+◌, ◌≤◌, ◌<◌, length, get_or, drop};
ghost use Rattle.minuska.specs.Computed.Step.{order};
ghost use Rattle.replay.specs.Reading.{table_of};
ghost use Rattle.memory.specs.Layout.{base, frame_at, position_of};
ghost use Rattle.replay.specs.Stack.{chosen};
ghost use Rattle.replay.specs.Turns.{position_at, Begun};
ghost use Rattle.replay.specs.Standing.{Fits};
ghost use Rattle.replay.specs.Endings.{FoundWithin, EndContract};

use crate::search::Search;
use memory::frame;
use minuska::Refusal;

// The rule that a frame tried last.
fn choice_at(search: &Search, frame: &[i64]) -> u16
    requires { (2 ≤ length frame.now) × Begun search.now.rules frame.now }
    ensures { result ≡ get_or (order (table_of search.now.table.words.now)) (pred (position_of frame.now)) 0 }
{
    step::ordered(search.table, frame::position(frame) - 1) as u16
}

// The rules that led to the end of the log.
fn write_choices(search: &Search, choices: &mut [u16], work: &[i64])
    requires fits { (length search.now.log.now ≤ length choices.old) × (base search.now.room (length search.now.log.now) ≤ length work.now) }
    requires begun { (i : ℕ) → i < length search.now.log.now → Begun search.now.rules (frame_at search.now.room work.now i) }
    ensures { choices.new ≡ chosen (order (table_of search.now.table.words.now)) (position_at search.now.room work.now) (length search.now.log.now) ++ drop (length search.now.log.now) choices.old }
{
    let chosen = &mut choices[..search.log.len()];
    for (i, choice) in chosen.iter_mut().enumerate() {
        *choice = choice_at(search, &work[frame::place(search.room, i)]);
    }
}

// What the search has found, in nodes. Out gets back what was kept for it in the last frame, behind the words of a path's end, and the work area is cleared.
pub fn conclude(
    search: &Search,
    found: Result<Option<usize>, Refusal>,
    out: &mut [i64],
    choices: &mut [u16],
    work: &mut [i64],
) -> Result<Option<usize>, Refusal>
    requires fits { Fits search.now out.old work.old × (length search.now.log.now ≤ length choices.old) }
    requires within { FoundWithin found search.now.rules (length search.now.log.now) search.now.room work.old }
    ensures { EndContract search.now.table.words.now found (length search.now.log.now) search.now.room out.old choices.old work.old out.new choices.new work.new result }
{
    let mut words = 0;
    if let Ok(Some(made)) = found {
        write_choices(search, choices, work);
        words = made;
    }
    let last = frame::place(search.room, search.log.len());
    let kept = &work[last.start + words..last.start + search.room];
    words::copy(out, words, kept);
    words::clear(&mut work[..last.end]);
    Ok(found?.map(|words| words / 2))
}
