// A frame's table of configurations that were searched before, in the words that its own configuration leaves free (specs/Memory). One slot is looked at for a
// configuration, whatever the table holds; an entry that falls into a slot replaces what stood there.
ghost use Rattle.std.specs.Prelude.{◌≡◌, true, ◌+◌, ◌*◌, ◌≤◌, ◌<◌, length, IfSome};
ghost use Rattle.memory.specs.Layout.{length_of, OwnFits};
ghost use Rattle.memory.specs.Memory.{least, Entry, Slot, InSlot, Heads, Opens, Readies, Puts, Keeping};

use crate::frame;

// The least frame that has a table at all.
const LEAST: usize = 18;

const MOST_SLOTS: usize = 256;

// A number by some of the words, at most 32: every word of a short configuration. The step is odd, so that labels and data are met.
fn mixed(words: &[i64]) -> u32 {
    let step = words.len() / 32 * 2 + 1;
    let mut mix = (words.len() % 4294967296) as u32;
    // `step_by` would walk over each word between.
    for part in words.chunks(step) {
        if let [word, ..] = part {
            let low = usize::try_from(*word).unwrap_or(0) % 4294967296;
            mix = mix.wrapping_add(low as u32).wrapping_mul(668265263);
        }
    }
    mix
}

// The place of the slot for a mix, where the table takes the frame's own configuration and one of `words` words.
#[tactic(auto, using(crate::proofs::MemoryLaw::slot_number), unfolding(crate::specs::Memory::width_of, crate::specs::Memory::slots_of))]
fn slot_at(frame: &[i64], mix: u32, words: usize) -> Option<usize>
    ensures { IfSome result (Slot frame.now words) }
{
    if frame.len() < LEAST {
        return None;
    }
    let own = frame::words_in(frame);
    let width = words::number_at(frame, frame.len() - 3);
    let slots = words::number_at(frame, frame.len() - 4);
    if own == 0
        || own >= width
        || words >= width
        || slots == 0
        || slots > MOST_SLOTS
        || (slots + 1).saturating_mul(width) > frame.len() - 4
    {
        return None;
    }
    Some((1 + mix as usize * slots / 4294967296) * width)
}

// Whether a configuration stands in the slot at `from`: lengths first.
#[tactic(auto, unfolding(crate::specs::Memory::head_of))]
fn stands(frame: &[i64], from: usize, configuration: &[i64]) -> bool
    requires { from + 1 + length configuration.now ≤ length frame.now }
    ensures { result ≡ true → InSlot frame.now from configuration.now }
{
    let start = from + 1;
    words::number_at(frame, from) == configuration.len()
        && words::same_by_ends(&frame[start..start + configuration.len()], configuration)
}

// Whether the table has a configuration.
#[tactic(auto, using(crate::proofs::MemoryLaw::found_entry))]
pub fn has(frame: &[i64], configuration: &[i64]) -> bool
    requires { 0 < length configuration.now }
    ensures { result ≡ true → Entry frame.now configuration.now }
{
    slot_at(frame, mixed(configuration), configuration.len()).is_some_and(|place| stands(
        frame,
        place,
        configuration,
    ))
}

// The heads of `count` slots become 0.
#[tactic(auto, using(crate::proofs::MemoryLaw::heads_none, crate::proofs::MemoryLaw::heads_more))]
fn empty(frame: &mut [i64], width: usize, count: usize)
    requires { ((count + 1) * width ≤ length frame.old) × (0 < width) }
    ensures { Heads frame.old frame.new width count }
{
    for slot in 0..count {
        words::put(frame, (slot + 1) * width, 0);
    }
}

// No table.
#[tactic(auto, using(crate::proofs::PutLaw::shut_opens))]
fn shut(frame: &mut [i64])
    requires { least ≤ length frame.old }
    ensures { Opens frame.old frame.new }
{
    let at = frame.len() - 3;
    words::put(frame, at, 0);
}

// The table set up, for configurations of up to `most` words and somewhat more. No table where there is no room for a slot.
fn lay_out(frame: &mut [i64], most: usize)
    requires { (least ≤ length frame.old) × (most ≤ length frame.old) × (length_of frame.old ≤ most) }
    ensures { Opens frame.old frame.new }
{
    let room = frame.len() - 4;
    let width = most + most / 4 + 2;
    let parts = room / width;
    if parts < 2 {
        shut(frame);
        return;
    }
    let count = (parts - 1).min(MOST_SLOTS);
    empty(frame, width, count);
    words::put(frame, room + 1, width);
    words::put(frame, room, count);
}

// A table that takes the frame's own configuration and one of `words` words, where there is room for one; what it had stays or goes whole.
fn ready(frame: &mut [i64], words: usize)
    requires { (least ≤ length frame.old) × (words ≤ length frame.old) × OwnFits frame.old }
    ensures { Readies frame.old frame.new words }
{
    let own = frame::words_in(frame);
    if own == 0 {
        shut(frame);
    } else if slot_at(frame, 0, words).is_none() {
        lay_out(frame, own.max(words));
    }
}

// The frame's own configuration is put into its slot.
#[tactic(auto, using(crate::proofs::PutLaw::own_puts, crate::proofs::PutLaw::none_put))]
fn put_own(frame: &mut [i64], words: usize)
    requires { OwnFits frame.old }
    ensures { Puts frame.old frame.new }
{
    let mix = mixed(frame::configuration(frame));
    if let Some(place) = slot_at(frame, mix, words) {
        let own = frame::words_in(frame);
        words::put(frame, place, own);
        words::copy_up(frame, 0, place + 1, own);
    }
}

// Before a configuration of `words` words is entered in the frame: its own is kept, where a table is wanted and has room for both. Else there is no table.
// `wanted` stays a flag: with two functions the test of the frame's length would stand in both.
pub fn keep(frame: &mut [i64], wanted: bool, words: usize)
    requires { (words ≤ length frame.old) × OwnFits frame.old }
    ensures { Keeping frame.old frame.new words }
{
    if frame.len() < LEAST {
        return;
    }
    if wanted {
        ready(frame, words);
        put_own(frame, words);
    } else {
        shut(frame);
    }
}
