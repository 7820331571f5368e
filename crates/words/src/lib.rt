// Words of a slice: numbers kept in them, copies, zeros, comparisons. What more than one crate does to words stands here, once.
#![tactic(auto)]

ghost use Rattle.std.specs.Prelude.{◌≡◌, true, ◌+◌, ◌^◌, ◌≤◌, ◌<◌, pos, length, get_or, take, drop, set, replicate};
ghost use Rattle.std.proofs.Math.Seq.{paste};
ghost use Rattle.minuska.specs.Bridge.Place.{Decides};
ghost use Rattle.words.specs.Number.{nat_of};

// The number that a word holds; 0 for a word below 0.
pub fn number_at(words: &[i64], at: usize) -> usize
    requires { at < length words.now }
    ensures { result ≡ nat_of (get_or words.now at (pos 0)) }
{
    usize::try_from(words[at]).unwrap_or(0)
}

pub fn put(words: &mut [i64], at: usize, number: usize)
    requires { (at < length words.old) × (number < 2 ^ 63) }
    ensures { words.new ≡ set words.old at (pos number) }
{
    words[at] = number as i64;
}

// Copies `from` into `to`, from `at` on: word by word, which is compiled to wide moves. The library's `copy_from_slice` is the C library's `memmove`, which a caller in C would have to link, and
// which is slow into words that are not in the cache.
pub fn copy(to: &mut [i64], at: usize, from: &[i64])
    requires { at + length from.now ≤ length to.old }
    ensures { to.new ≡ paste to.old at from.now (length from.now) }
{
    for (i, word) in from.iter().enumerate() {
        to[at + i] = *word;
    }
}

// Copies `from` to the start of `to`: a frame that is entered.
pub fn copy_anew(to: &mut [i64], from: &[i64])
    requires { length from.now ≤ length to.old }
    ensures { to.new ≡ paste to.old 0 from.now (length from.now) }
{
    copy(to, 0, from);
}

// Copies `count` words within a slice, from `from` on to `to` on, behind them. The library's `copy_within` is `memmove` too.
pub fn copy_up(words: &mut [i64], from: usize, to: usize, count: usize)
    requires { (from + count ≤ to) × (to + count ≤ length words.old) }
    ensures { words.new ≡ paste words.old to (take count (drop from words.old)) count }
{
    for i in 0..count {
        words[to + i] = words[from + i];
    }
}

// Every word becomes 0.
pub fn clear(words: &mut [i64])
    ensures { words.new ≡ replicate (length words.old) (pos 0) }
{
    words.fill(0);
}

// Whether two slices hold the same words.
#[tactic(auto, using(crate::proofs::DecideLaw::same_decides))]
pub fn same(a: &[i64], b: &[i64]) -> bool
    ensures { Decides result (a.now ≡ b.now) }
{
    a == b
}

// The same, sooner for slices that differ in their last two words: those of a configuration are its last node.
#[inline]
#[tactic(auto, using(crate::proofs::DecideLaw::same_decides))]
pub fn same_by_ends(a: &[i64], b: &[i64]) -> bool
    ensures { Decides result (a.now ≡ b.now) }
{
    a.len() == b.len() && ends_agree(a, b) && a == b
}

// Whether the last two words agree, where there are two.
#[inline]
fn ends_agree(a: &[i64], b: &[i64]) -> bool
    requires { length a.now ≡ length b.now }
    ensures { a.now ≡ b.now → result ≡ true }
{
    let n = a.len();
    if n < 2 {
        return true;
    }
    a[n - 1] == b[n - 1] && a[n - 2] == b[n - 2]
}
