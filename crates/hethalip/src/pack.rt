// An answer as one number: its kind in the low byte, its values above.
ghost use Rattle.std.specs.Prelude.{◌≡◌, ℕ, ◌+◌, ◌*◌, ◌≤◌, ◌<◌, ◌^◌, IfOk};
ghost use Rattle.minuska.specs.Rule.{max_nodes, max_steps};
ghost use Rattle.hethalip.specs.Pack.{pack, kind_number, good_number, match_number, reasons_number, step_number, run_number, replay_number};
ghost use Rattle.hethalip.specs.Range.{AnyGood, CountWithin, RuleWithin, StepWithin, StepsWithin, AnyReplay};

use minuska::{MatchAnswer, Refusal, ReplayAnswer, RunAnswer, Stepped};

// The low byte of an answer that is no refusal: what it is.
#[derive(Clone, Copy, Debug, PartialEq, Eq)]
enum Kind {
    Good = 0,
    Over = 6,
    Stuck = 16,
    Stepped = 17,
    RanStuck = 18,
    RanSpent = 19,
    Reproduced = 20,
    NotReproduced = 21,
    Matches = 22,
    Differs = 23,
    Listed = 24,
    NotStuck = 25,
}

// What a routine answers where it does not refuse. A trait of this crate's and no `From`: the answers and u64 are types of other crates and of the library.
pub trait Answer {
    ghost within: { Self → Type 0 };

    ghost number_of: { Self → ℕ };

    fn number(self) -> u64
        requires { within self }
        ensures { result ≡ number_of self };
}

// An answer, or the refusal's own number.
pub fn packed<T: Answer>(answer: Result<T, Refusal>) -> u64
    requires { IfOk answer T.within }
    ensures { result ≡ pack T.number_of answer }
{
    match answer {
        Ok(given) => given.number(),
        Err(why) => u64::from(why),
    }
}

// A check.
impl Answer for () {
    ghost within = { AnyGood };

    ghost number_of = { good_number };

    fn number(self) -> u64 {
        Kind::Good as u64
    }
}

// A count above its kind.
fn counted(kind: Kind, k: usize) -> u64
    requires { k ≤ max_steps }
    ensures { result ≡ kind_number kind + k * 2 ^ 8 }
{
    kind as u64 + k as u64 * 256
}

impl Answer for MatchAnswer {
    ghost within = { CountWithin };

    ghost number_of = { match_number };

    fn number(self) -> u64 {
        match self {
            MatchAnswer::Matches(count) => counted(Kind::Matches, count),
            MatchAnswer::Differs(count) => counted(Kind::Differs, count),
        }
    }
}

// Reasons.
impl Answer for Option<usize> {
    ghost within = { RuleWithin };

    ghost number_of = { reasons_number };

    fn number(self) -> u64 {
        match self {
            None => Kind::Listed as u64,
            Some(rule) => counted(Kind::NotStuck, rule),
        }
    }
}

// A step's three values above its kind.
fn stepped(rule: usize, action: u16, nodes: usize) -> u64
    requires { (rule < 256) × (nodes ≤ max_nodes) }
    ensures { result ≡ 17 + rule * 2 ^ 8 + action * 2 ^ 16 + nodes * 2 ^ 32 }
{
    Kind::Stepped as u64 + rule as u64 * 256 + u64::from(action) * 65536 + nodes as u64 * 4294967296
}

impl Answer for Option<Stepped> {
    ghost within = { StepWithin };

    ghost number_of = { step_number };

    fn number(self) -> u64 {
        match self {
            None => Kind::Stuck as u64,
            Some(made) => stepped(made.rule, made.action, made.nodes),
        }
    }
}

impl Answer for RunAnswer {
    ghost within = { StepsWithin };

    ghost number_of = { run_number };

    #[tactic(auto, unfolding(minuska::specs::Slice::run_says, minuska::specs::Answer::number))]
    fn number(self) -> u64 {
        match self {
            RunAnswer::Stuck(k) => counted(Kind::RanStuck, k),
            RunAnswer::Spent(k) => counted(Kind::RanSpent, k),
            RunAnswer::Over(k) => counted(Kind::Over, k),
        }
    }
}

impl Answer for ReplayAnswer {
    ghost within = { AnyReplay };

    ghost number_of = { replay_number };

    fn number(self) -> u64 {
        match self {
            ReplayAnswer::Reproduced => Kind::Reproduced as u64,
            ReplayAnswer::NotReproduced => Kind::NotReproduced as u64,
        }
    }
}
