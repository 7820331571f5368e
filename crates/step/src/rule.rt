// One rule at a configuration: its left, its conditions, the words of its right.
ghost use Rattle.std.specs.Prelude.{◌≡◌, length};

use table::checked::Rule;
use term::configuration::Configuration;
use term::places::Places;
use value::Scope;

// Why a rule does not apply.
#[derive(Clone, Copy, Debug, PartialEq, Eq)]
pub enum Obstacle {
    // the place, from 0 in preorder, of the first node of its left that disagrees
    Left(usize),
    // its left matches: the number, from 0, of its first condition that fails
    Condition(usize),
}

// A rule that is tried on a configuration.
#[derive(Clone, Copy)]
pub struct Attempt<'a> {
    pub rule: Rule<'a>,
    pub configuration: Configuration<'a>,
}

impl<'a> Attempt<'a> {
    ghost use Rattle.step.specs.Apply.{MatchedHere, MatchIsHere, HoldIsHere, FitsIsHere, WordsFitHere, WriteIsHere};
    ghost use Rattle.step.specs.Verdict.{JudgeIsHere};

    // Judges the rule. Where its left matches, the parts of its variables stand in places.
    pub fn judge(self, places: &mut Places) -> Result<(), Obstacle>
        ensures { JudgeIsHere self.entry places.new result }
    {
        self.compare_left(places).map_err(Obstacle::Left)?;
        self.hold_conditions(places).map_err(Obstacle::Condition)
    }

    // Whether the rule's left matches, or the place of the first of its nodes that disagrees; the parts of its variables go to places.
    fn compare_left(self, places: &mut Places) -> Result<(), usize>
        ensures { MatchIsHere self.entry places.new result }
    {
        let left = self.rule.left();
        crate::matching::match_left(self.rule.table.words, left, self.configuration, places)
    }

    // What the rule's expressions are evaluated over, where its left matches.
    fn scope(self, places: &'a Places) -> Scope<'a>
        ensures table { result.table.now ≡ self.entry.rule.table.words.now }
        ensures configuration { result.configuration.now ≡ self.entry.configuration.words.now }
        ensures places { result.places.now ≡ places.now }
    {
        Scope {
            table: self.rule.table.words,
            configuration: self.configuration.words,
            places,
        }
    }

    // Whether the rule's conditions hold, or the number of the first that fails. That the left has matched is asked in clauses, here and behind: the places are lent to be written anew for each rule.
    fn hold_conditions(self, places: &Places) -> Result<(), usize>
        requires { MatchedHere self places.now }
        ensures { HoldIsHere self.entry places.now result }
    {
        let conditions = self.rule.conditions();
        let scope = self.scope(places);
        crate::conditions::hold_all(&scope, conditions)
    }

    // Whether there is room for the words of the rule's successor. There is if the right's sizes show it: two words for each node that gives one, and for each term
    // that is a part of the configuration or of a literal of the right, no more than the greater of the two has. Else the right is measured.
    pub fn fits(self, places: &Places, room: usize) -> bool
        requires { MatchedHere self places.now }
        ensures { FitsIsHere self.entry places.now room result }
    {
        let sizes = self.rule.sizes();
        let right = self.rule.right();
        let most = self.configuration.words.len().max(right.to - right.from);
        if 2 * sizes.fixed + sizes.leaves * most <= room {
            return true;
        }
        let scope = self.scope(places);
        crate::right::measure_right(&scope, right, room)
    }

    // Writes the words of the rule's successor from the start of out, and says how many.
    pub fn write_successor(self, places: &Places, out: &mut [i64]) -> usize
        requires matched { MatchedHere self places.now }
        requires words_fit { WordsFitHere self places.now (length out.old) }
        ensures { WriteIsHere self.entry places.now out.old out.new result }
    {
        let right = self.rule.right();
        let scope = self.scope(places);
        crate::right::write_right(&scope, right, out)
    }
}
