// What the routines answer. The meaning of each answer is in specs/, the laws are in proofs/: README.md says which files must be believed.
#![tactic(auto)]

pub mod limits;

ghost use Rattle.std.specs.Prelude.{◌≡◌};
ghost use Rattle.minuska.specs.Answer.{number};

// Why a call is refused, with its number (document 01, "Turned back").
#[derive(Clone, Copy, Debug, PartialEq, Eq)]
pub enum Refusal {
    BadTable = 1,
    BadConfiguration = 2,
    TooLong = 3,
    BadLimit = 4,
    ShortBuffer = 5,
    OverLimit = 6,
    Unreadable = 7,
}

impl From<Refusal> for u64 {
    ghost from_gives = { λ refusal n. n ≡ number refusal };

    #[tactic(auto, unfolding(crate::specs::Answer::number))]
    fn from(refusal: Refusal) -> u64 {
        refusal as u64
    }
}

// A step: the rule, its action, and how many nodes the successor has.
#[derive(Clone, Copy, Debug, PartialEq, Eq)]
pub struct Stepped {
    pub rule: usize,
    pub action: u16,
    pub nodes: usize,
}

// A rule's left matched against a configuration, with how many of the left's nodes were compared (document 02, request 3). Not a Result: neither case is an error.
#[derive(Clone, Copy, Debug, PartialEq, Eq)]
pub enum MatchAnswer {
    // it matches, and all were
    Matches(usize),
    // it does not: those up to and including the first that disagrees; none where the number names no rule
    Differs(usize),
}

// A run, with its count of steps; `Over` is refusal 6. `Over` is no `Err`: document 01's 6 of a run also says k.
#[derive(Clone, Copy, Debug, PartialEq, Eq)]
pub enum RunAnswer {
    Stuck(usize),
    Spent(usize),
    Over(usize),
}

// A replay that is not refused; over the limit is refusal 6.
#[derive(Clone, Copy, Debug, PartialEq, Eq)]
pub enum ReplayAnswer {
    Reproduced,
    NotReproduced,
}

// A rule's row in a table's index (specs/Bridge/Place): where its left, its right and its conditions start and where it ends, counted from the first rule; the key of its left's root;
// its action; and the sizes of its right.
#[derive(Clone, Copy)]
pub struct Row {
    pub left: u16,
    pub right: u16,
    pub conditions: u16,
    pub end: u16,
    pub key: u16,
    pub action: u16,
    pub fixed: u16,
    pub leaves: u16,
}

impl Row {
    pub const EMPTY: Row = Row {
        left: 0,
        right: 0,
        conditions: 0,
        end: 0,
        key: 0,
        action: 0,
        fixed: 0,
        leaves: 0,
    };
}

// The index of a table: a row for each of at most 256 rules. A table's check fills it; every routine on checked words is lent it.
#[derive(Clone, Copy)]
pub struct Index {
    pub rows: [Row; limits::MAX_RULES],
}

impl Index {
    pub const EMPTY: Index = Index {
        rows: [Row::EMPTY; limits::MAX_RULES],
    };
}
