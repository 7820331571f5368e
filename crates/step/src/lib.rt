// One rule's left against a configuration; why no rule applies; one step: by a given rule, and by the earliest that applies.
#![tactic(auto)]

mod conditions;
mod matching;
mod reason;
mod right;
mod rule;

ghost use Rattle.std.specs.Prelude.{◌≡◌, IfOk, OnOk, IfErr, Ok, Err};
ghost use Rattle.minuska.specs.Contract.{MatchRuleContract, ReasonsContract, StepByRuleContract, StepContract};
ghost use Rattle.minuska.specs.Computed.Outcome.{table_check, configuration_check, or_second};
ghost use Rattle.minuska.specs.Bridge.Place.{RuleCountIs, ActionIs, OrderedIs};
ghost use Rattle.minuska.specs.Slice.{out_limit, write};
ghost use Rattle.std.specs.Borrow.{sem};
ghost use Rattle.table.specs.Index.{LeavesIndex, places_found};
ghost use Rattle.step.specs.Apply.{MatchedHere, InstantiatedHere};
ghost use Rattle.step.specs.Verdict.{VerdictHere};
ghost use Rattle.step.specs.Among.{KeyFor, AmongIs};

use crate::rule::{Attempt, Obstacle};
use minuska::limits::{MAX_NODES, MAX_RULES};
use minuska::{Index, MatchAnswer, Refusal, Stepped};
use table::checked::Candidate;
use term::places::Places;

// The two types by which a crate above hands over what was checked.
pub use table::checked::Table;
pub use term::configuration::Configuration;

// A checked table, and a configuration to which its rules are applied.
#[derive(Clone, Copy)]
pub struct Game<'a> {
    pub table: Table<'a>,
    pub configuration: Configuration<'a>,
}

// Refusals 1 and 2, in order; else the words as what they are. The index is the first parameter, as in `Table::check`.
pub fn checked<'a>(
    index: &'a mut Index,
    table: &'a [i64],
    configuration: &'a [i64],
) -> Result<Game<'a>, Refusal>
    ensures* leaves { sem 𝓛 (LeavesIndex table.now index.entry) }
    ensures index { IfOk result (λ game. game.table.index.now.rows ≡ write (places_found table.now) index.old.rows) }
    ensures words { IfOk result (λ game. (game.table.words.now ≡ table.now) × (game.configuration.words.now ≡ configuration.now)) }
    ensures good { OnOk result (or_second (table_check table.now) (configuration_check configuration.now) ≡ Ok tt) }
    ensures bad { IfErr result (λ refusal. or_second (table_check table.now) (configuration_check configuration.now) ≡ Err refusal) }
{
    let table = Table::check(index, table)?;
    let configuration = Configuration::check(configuration)?;
    Ok(Game {
        table,
        configuration,
    })
}

// Whether a rule's left matches the configuration, conditions aside, and how many of its nodes were compared. A number that names no rule does not match.
pub fn match_rule(table: &[i64], configuration: &[i64], rule: usize) -> Result<MatchAnswer, Refusal>
    ensures { MatchRuleContract table.now configuration.now rule result }
{
    let mut index = Index::EMPTY;
    let game = checked(&mut index, table, configuration)?;
    Ok(game.compare(rule))
}

// Why each rule does not apply: two words for each in the list, if the configuration is stuck; else the rule that a step takes, and the list keeps.
pub fn reasons(
    table: &[i64],
    configuration: &[i64],
    list: &mut [i64],
) -> Result<Option<usize>, Refusal>
    ensures { ReasonsContract table.now configuration.now list.old list.new result }
{
    let mut index = Index::EMPTY;
    let game = checked(&mut index, table, configuration)?;
    game.list_reasons(list)
}

// The step by one given rule: it does not apply, or its successor is written, or that is too large. A number that names no rule does not apply.
pub fn step_by_rule(
    table: &[i64],
    configuration: &[i64],
    rule: usize,
    out: &mut [i64],
) -> Result<Option<Stepped>, Refusal>
    ensures { StepByRuleContract table.now configuration.now rule out.old out.new result }
{
    let mut index = Index::EMPTY;
    let game = checked(&mut index, table, configuration)?;
    game.by_rule(rule, out)
}

// The step: the earliest rule that applies writes its successor, if that is within the limit.
pub fn step(
    table: &[i64],
    configuration: &[i64],
    out: &mut [i64],
) -> Result<Option<Stepped>, Refusal>
    ensures { StepContract table.now configuration.now out.old out.new result }
{
    let mut index = Index::EMPTY;
    let game = checked(&mut index, table, configuration)?;
    game.earliest(out)
}

impl Game<'_> {
    // A rule's left against the configuration, by the rule's verdict.
    pub fn compare(self, number: usize) -> MatchAnswer
        ensures { MatchRuleContract self.entry.table.words.now self.entry.configuration.words.now number (Ok result) }
    {
        let Some(rule) = self.table.rule(number) else {
            return MatchAnswer::Differs(0);
        };
        let left = rule.left();
        let nodes = (left.to - left.from) / 2;
        match judge_alone(Attempt {
            rule,
            configuration: self.configuration,
        }) {
            Ok(()) => MatchAnswer::Matches(nodes),
            Err(Obstacle::Condition(_)) => MatchAnswer::Matches(nodes),
            Err(Obstacle::Left(place)) => MatchAnswer::Differs(place + 1),
        }
    }

    // Why each rule does not apply, if none does.
    pub fn list_reasons(self, list: &mut [i64]) -> Result<Option<usize>, Refusal>
        ensures { ReasonsContract self.entry.table.words.now self.entry.configuration.words.now list.old list.new result }
    {
        let count = self.table.rules();
        if list.len() < 2 * count {
            return Err(Refusal::ShortBuffer);
        }
        let mut obstacles = [Obstacle::Left(0); MAX_RULES];
        let found = reason::judge_all(self, &mut obstacles);
        if found.is_none() {
            reason::put_all(&obstacles[..count], list);
        }
        Ok(found)
    }

    // The step by one given rule.
    pub fn by_rule(self, number: usize, out: &mut [i64]) -> Result<Option<Stepped>, Refusal>
        ensures { StepByRuleContract self.entry.table.words.now self.entry.configuration.words.now number out.old out.new result }
    {
        let Some(named) = self.table.rule(number) else {
            return Ok(None);
        };
        let mut last = Obstacle::Left(0);
        apply_among(Candidate::alone(named), self.configuration, &mut last, out)
    }

    // The step.
    pub fn earliest(self, out: &mut [i64]) -> Result<Option<Stepped>, Refusal>
        ensures { StepContract self.entry.table.words.now self.entry.configuration.words.now out.old out.new result }
    {
        let root = table::key::root(self.configuration.words);
        let Some(first) = self.table.first(root) else {
            return Ok(None);
        };
        let mut last = Obstacle::Left(0);
        apply_among(first, self.configuration, &mut last, out)
    }
}

// What is said of one rule: that it applies, or why not. It is tried as a step tries it, with no room for a successor: so the walk over a left has one place in
// the compiled code, where it is inlined.
fn judge_alone(attempt: Attempt) -> Result<(), Obstacle>
    ensures { VerdictHere attempt.entry result }
{
    let alone = Candidate::alone(attempt.rule);
    let mut last = Obstacle::Left(0);
    match apply_among(alone, attempt.configuration, &mut last, &mut []) {
        Ok(None) => Err(last),
        _ => Ok(()),
    }
}

// The step by the first that applies of a rule and of those that are tried behind it; where none does, `last` says why the last that was tried does not. In the answer that would be
// plainer, but each step would copy its answer out of it, and read in one what was just written in two: a step of two counters takes 1.09 times as long.
fn apply_among(
    first: Candidate,
    configuration: Configuration,
    last: &mut Obstacle,
    out: &mut [i64],
) -> Result<Option<Stepped>, Refusal>
    requires { KeyFor configuration.words.now first.to first.root }
    ensures { AmongIs first.entry.rule.table.words.now configuration.entry.words.now first.entry.rule.number first.entry.from first.entry.to out.old out.new last.new result }
{
    let mut places = Places::new();
    let mut tried = first;
    // A loop: each candidate says which is the next; a `for` over `successors` is not proved to end, as in `reason::judge_all`.
    loop {
        let attempt = Attempt {
            rule: tried.rule,
            configuration,
        };
        let Err(obstacle) = attempt.judge(&mut places) else {
            let stepped = write_within(attempt, &places, out)?;
            return Ok(Some(stepped));
        };
        let Some(next) = tried.next() else {
            *last = obstacle;
            return Ok(None);
        };
        tried = next;
    }
}

// The successor by a rule whose left matches and whose conditions hold, if it is within the limit that out gives.
fn write_within(attempt: Attempt, places: &Places, out: &mut [i64]) -> Result<Stepped, Refusal>
    requires { MatchedHere attempt places.now }
    ensures { InstantiatedHere attempt.entry places.now out.old out.new result }
{
    let room = 2 * out_limit(out.len());
    if !attempt.fits(places, room) {
        return Err(Refusal::OverLimit);
    }
    let words = attempt.write_successor(places, out);
    Ok(Stepped {
        rule: attempt.rule.number,
        action: attempt.rule.action(),
        nodes: words / 2,
    })
}

// "The ceiling is half the out slice's words, rounded down, at most 32,768 nodes."
fn out_limit(words: usize) -> usize
    ensures { result ≡ out_limit words }
{
    (words / 2).min(MAX_NODES)
}

// How many rules a checked table has, a rule's action, and the rule at a position of the order in which rules are tried: for crates above, which cite no contract but of this crate.
pub fn rule_count(table: Table) -> usize
    ensures { RuleCountIs table.entry.words.now result }
{
    table.rules()
}

pub fn action(table: Table, rule: usize) -> u16
    ensures { ActionIs table.entry.words.now rule result }
{
    table.action(rule)
}

pub fn ordered(table: Table, position: usize) -> usize
    ensures { OrderedIs table.entry.words.now position result }
{
    table.ordered(position)
}
