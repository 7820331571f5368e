// A frame: words for a configuration, their count, and the next position to try in the order of rules. Each function takes a frame's own words.
// Its layout is known here and in specs/Layout alone. That a frame has its last two words, or holds its configuration (`OwnFits`), is asked in clauses, and no type holds it: a frame is
// cut out of the work area anew at each turn, to be read or to be written, so there would be two types, one with a `&` and one with a `&mut`, made and unmade at each call.
ghost use Rattle.std.specs.Prelude.{◌≡◌, ◌+◌, ◌^◌, ◌≤◌, ◌<◌, length};
ghost use Rattle.memory.specs.Layout.{max_room, base, length_of, position_of, words_of, OwnFits, advanced, entered};

use std::ops::Range;

// The words of a frame that are not its configuration's.
pub const EXTRA: usize = 2;

// Where the frame at a depth begins in the work area. That `room` is bounded is asked in clauses: the search holds it in a type, and these functions are public.
pub fn base_at(room: usize, depth: usize) -> usize
    requires { (room ≤ max_room) × (base room depth < 2 ^ 64) }
    ensures { result ≡ base room depth }
{
    depth * (room + EXTRA)
}

// Where it lies.
pub fn place(room: usize, depth: usize) -> Range<usize>
    requires { (room ≤ max_room) × (base room depth + (room + 2) < 2 ^ 64) }
    ensures start { result.start ≡ base room depth }
    ensures end { result.end ≡ base room depth + (room + 2) }
{
    let at = base_at(room, depth);
    at..at + (room + EXTRA)
}

#[tactic(auto, unfolding(crate::specs::Layout::position_of))]
pub fn position(frame: &[i64]) -> usize
    requires { 2 ≤ length frame.now }
    ensures { result ≡ position_of frame.now }
{
    words::number_at(frame, frame.len() - 1)
}

// How many words the frame's configuration has, 0 where it holds none. A count and no Option: such a frame has an empty configuration, which `configuration` gives as any other.
#[tactic(auto, unfolding(crate::specs::Layout::length_of))]
pub fn words_in(frame: &[i64]) -> usize
    requires { 2 ≤ length frame.now }
    ensures { result ≡ length_of frame.now }
{
    words::number_at(frame, frame.len() - 2)
}

#[tactic(auto, unfolding(crate::specs::Layout::words_of))]
pub fn configuration(frame: &[i64]) -> &[i64]
    requires { OwnFits frame.now }
    ensures { result.now ≡ words_of frame.now }
{
    &frame[..words_in(frame)]
}

#[tactic(auto, unfolding(crate::specs::Layout::advanced))]
pub fn set_position(frame: &mut [i64], position: usize)
    requires { (2 ≤ length frame.old) × (position < 2 ^ 32) }
    ensures { frame.new ≡ advanced frame.old position }
{
    let at = frame.len() - 1;
    words::put(frame, at, position);
}

// A frame anew, at position 0.
#[tactic(auto, unfolding(crate::specs::Layout::entered))]
pub fn enter(frame: &mut [i64], configuration: &[i64])
    requires { length configuration.now + 2 ≤ length frame.old }
    ensures { frame.new ≡ entered frame.old configuration.now }
{
    let at = frame.len() - 2;
    words::copy_anew(frame, configuration);
    words::put(frame, at, configuration.len());
    set_position(frame, 0);
}
