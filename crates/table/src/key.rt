// Keys of nodes: a rule whose left's root has another key than the configuration's root does not match.
ghost use Rattle.std.specs.Prelude.{◌≡◌, ◌<◌};
ghost use Rattle.minuska.specs.Bridge.Place.{key_of, remainder, Accepted, RootKeyIs};

// What is left of a word by a number; nothing of one below 0.
fn remainder(word: i64, by: usize) -> usize
    requires { 0 < by }
    ensures { result ≡ remainder word by }
{
    word.max(0) as usize % by
}

// The key of a node, by its two words; 0 of a variable, as `key_of` and the index have it: a row holds a number, and a rule whose key is 0 is never passed over.
#[tactic(auto, using(crate::proofs::KeyLaw::key_variable, crate::proofs::KeyLaw::key_other, crate::proofs::KeyLaw::remainder_small))]
pub fn key(t: i64, d: i64) -> u16
    ensures { result ≡ key_of t d }
{
    if t == term::VARIABLE {
        return 0;
    }
    (4096 * remainder(t, 16) + remainder(d, 4096)) as u16
}

// The key of the configuration's root.
pub fn root(configuration: &[i64]) -> usize
    requires { Accepted configuration.now }
    ensures { RootKeyIs configuration.now result }
{
    usize::from(key(configuration[0], configuration[1]))
}
