// What a search over frames remembers, in the frames' own words: the configuration that a frame was left with, and more in its free words. What a remembered
// configuration is good for is the search's matter; here it is words that stood in the frame once.
#![tactic(auto)]

mod entries;
pub mod frame;

ghost use Rattle.std.specs.Prelude.{◌≡◌, true, ◌+◌, ◌≤◌, ◌<◌, length};
ghost use Rattle.memory.specs.Layout.{max_room, base, OwnFits, Enters, Forgets};
ghost use Rattle.memory.specs.Memory.{Keeps, Known};

// Whether a frame's table is worth its time, where so many actions are left. Nothing is promised: any answer serves. `remember` chooses no step here: it is half of the answer.
pub fn pays(remember: bool, left: usize) -> bool {
    remember && 4 < left
}

// Whether the frame is seen to remember a configuration, in its own place or, where that is wanted, in its table. A search that does not remember is told of none.
// `remember` and `tabled` stay flags: the first is a search's, the second is worked out at each depth; an enum of the two would be made before each call and taken apart in it, and for
// functions of their own the caller would test both.
pub fn known(frame: &[i64], remember: bool, tabled: bool, configuration: &[i64]) -> bool
    requires { OwnFits frame.now × (0 < length configuration.now) }
    ensures { result ≡ true → (remember ≡ true) × Known frame.now configuration.now }
{
    if !remember || frame::words_in(frame) == 0 {
        return false;
    }
    words::same_by_ends(frame::configuration(frame), configuration)
        || tabled && entries::has(frame, configuration)
}

// A frame anew; what stood in it is kept in its table, where that is wanted. `tabled` is the answer of `pays`: with two functions each caller would test it.
#[tactic(auto, using(crate::proofs::PutLaw::kept_enters, crate::proofs::PutLaw::kept_keeps))]
pub fn enter(frame: &mut [i64], tabled: bool, configuration: &[i64])
    requires { (length configuration.now + 2 ≤ length frame.old) × OwnFits frame.old }
    ensures enters { Enters frame.old frame.new configuration.now }
    ensures keeps { Keeps frame.old frame.new }
{
    entries::keep(frame, tabled, configuration.len());
    frame::enter(frame, configuration);
}

// No frame before the one at depth `actions` holds a configuration.
#[tactic(auto, using(crate::proofs::LayoutLaw::forgets_none))]
pub fn forget(work: &mut [i64], room: usize, actions: usize)
    requires { (base room actions ≤ length work.old) × (room ≤ max_room) }
    ensures { Forgets room actions work.old work.new }
{
    for i in 0..actions {
        words::put(work, frame::base_at(room, i) + room, 0);
    }
}
