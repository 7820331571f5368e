// Refusals 3, 4 and 5 (document 01, "Turned back"), once for every routine that has a limit.
#![tactic(auto)]

ghost use Rattle.std.specs.Prelude.{◌≡◌, ◌+◌, ◌*◌, ◌<◌, ltb};
ghost use Rattle.sizes.specs.Sizes.{limit_outside, size_check};

use minuska::Refusal;
use minuska::limits::MAX_NODES;

// 4: whether a limit is out of range, or below the configuration's nodes.
fn limit_outside(limit: usize, nodes: usize) -> bool
    ensures { result ≡ limit_outside limit nodes }
{
    limit == 0 || MAX_NODES < limit || limit < nodes
}

// In order: a count above the most, a limit out of range or below the configuration's nodes, a slice that is short.
#[tactic(auto, unfolding(crate::specs::Sizes::size_check))]
pub fn check_sizes(
    count: usize,
    most: usize,
    nodes: usize,
    limit: usize,
    short: bool,
) -> Result<(), Refusal>
    ensures { result ≡ size_check count most nodes limit short }
{
    if most < count {
        return Err(Refusal::TooLong);
    }
    if limit_outside(limit, nodes) {
        return Err(Refusal::BadLimit);
    }
    if short {
        return Err(Refusal::ShortBuffer);
    }
    Ok(())
}

// Whether so many words do not hold so many nodes. Nothing is multiplied, so that any two numbers serve, a limit that is refused too.
pub fn lacks_nodes(words: usize, nodes: usize) -> bool
    ensures { result ≡ ltb words (2 * nodes) }
{
    words / 2 < nodes
}

// Whether so many words do not hold frames of so many nodes and two words each.
#[tactic(auto, using(crate::proofs::SizesLaw::frames_lacked))]
pub fn lacks_frames(words: usize, frames: usize, nodes: usize) -> bool
    requires { 0 < frames }
    ensures { result ≡ ltb words (frames * (2 * nodes + 2)) }
{
    words / 2 / frames <= nodes
}
