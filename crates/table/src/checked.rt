// A table that the check has accepted, with its index.
ghost use Rattle.std.specs.Prelude.{◌≡◌, ◌≤◌, IfOk, OnOk, IfErr, Ok, Err, IfSome, IfNone};
ghost use Rattle.minuska.specs.Bridge.Place.{Indexed, Names, RuleCountIs, ActionIs, OrderedIs, Positions, SeekIs, left_words, right_words, conditions_words, PartIs, SizesAre};
ghost use Rattle.minuska.specs.Computed.Outcome.{table_check};
ghost use Rattle.table.specs.Checked.{Indexed-prop, Names-prop, Positions-prop};
ghost use Rattle.std.specs.Borrow.{sem};
ghost use Rattle.minuska.specs.Slice.{write};
ghost use Rattle.table.specs.Index.{RowIs, LeavesIndex, places_found};
ghost use Rattle.table.specs.Candidate.{Unnamed, CandidateIs, FirstIs, NoneFirst};

use crate::index::{RightSizes, place};
use minuska::{Index, Refusal, Row};
use term::Span;

// The words of a table, and its index, which the check has filled.
#[derive(Clone, Copy)]
pub struct Table<'a> {
    pub words: &'a [i64],
    pub index: &'a Index,
    pub ghost indexed: { Indexed words.now index.now.rows } by { Indexed-prop words.now index.now.rows },
}

// A rule of a checked table.
#[derive(Clone, Copy)]
pub struct Rule<'a> {
    pub table: Table<'a>,
    pub number: usize,
    pub ghost named: { Names table.words.now number } by { Names-prop table.words.now number },
}

// A rule that may apply, and where the next is sought if it does not: at the positions from one on, up to another, for a configuration whose root has the key `root`.
#[derive(Clone, Copy)]
pub struct Candidate<'a> {
    pub rule: Rule<'a>,
    pub root: usize,
    pub from: usize,
    pub to: usize,
    pub ghost there: { Positions rule.table.words.now to } by { Positions-prop rule.table.words.now to },
    pub ghost ahead: { from ≤ to },
}

impl<'a> Table<'a> {
    // Checks the words, and fills the index. The index comes first, since the check proves of a first parameter alone, and of no array, what it holds when a
    // borrow in the answer has ended.
    pub fn check(index: &'a mut Index, words: &'a [i64]) -> Result<Self, Refusal>
        ensures* leaves { sem 𝓛 (LeavesIndex words.now index.entry) }
        ensures table { IfOk result (λ t. t.words.now ≡ words.now) }
        ensures index { IfOk result (λ t. t.index.now.rows ≡ write (places_found words.now) index.old.rows) }
        ensures good { OnOk result (table_check words.now ≡ Ok tt) }
        ensures bad { IfErr result (λ r. table_check words.now ≡ Err r) }
    {
        crate::index_table(words, index)?;
        Ok(Table { words, index })
    }

    // How many rules it has.
    pub fn rules(self) -> usize
        ensures { RuleCountIs self.entry.words.now result }
    {
        self.words[0] as usize
    }

    // The rule of a number, if it names one.
    pub fn rule(self, number: usize) -> Option<Rule<'a>>
        ensures some { IfSome result (λ rule. (rule.table.words.now ≡ self.entry.words.now) × (rule.number ≡ number)) }
        ensures none { IfNone result (Unnamed self.entry.words.now number) }
    {
        if self.rules() <= number {
            return None;
        }
        Some(Rule {
            table: self,
            number,
        })
    }

    // A rule's action. 0 of a number that names none, as the contract `ActionIs` has it: a public function, which asks no more of callers.
    pub fn action(self, number: usize) -> u16
        ensures { ActionIs self.entry.words.now number result }
    {
        match self.rule(number) {
            Some(rule) => rule.action(),
            None => 0,
        }
    }

    // The rule at a position of the order in which rules are tried.
    #[tactic(auto, using(crate::proofs::IndexLaw::ordered_is))]
    pub fn ordered(self, position: usize) -> usize
        ensures { OrderedIs self.entry.words.now position result }
    {
        position
    }

    // The first position from one on, up to another, whose rule's left may match a configuration whose root has that key: the left's is a variable, or has it too.
    // The last position where there is none, as `SeekIs` has it: a public function; `candidate` makes an Option of it. A `for`: `find` over the range proves, but takes 6,806 instructions a step for
    // 6,773 (200 rules).
    pub fn seek(self, root: usize, from: usize, to: usize) -> usize
        requires { Positions self.words.now to × (from ≤ to) }
        ensures { SeekIs self.entry.words.now root from to result }
    {
        for i in from..to {
            let key = usize::from(self.index.rows[self.ordered(i)].key);
            if key == root || key == 0 {
                return i;
            }
        }
        to
    }

    // The first candidate at the positions from one on, up to another, for a configuration whose root has that key.
    fn candidate(self, root: usize, from: usize, to: usize) -> Option<Candidate<'a>>
        requires { Positions self.words.now to × (from ≤ to) }
        ensures some { IfSome result (λ c. (c.rule.table.words.now ≡ self.entry.words.now) × CandidateIs self.entry.words.now root from to c.rule.number c.root c.from c.to) }
        ensures none { IfNone result (SeekIs self.entry.words.now root from to to) }
    {
        let position = self.seek(root, from, to);
        if to <= position {
            return None;
        }
        let rule = Rule {
            table: self,
            number: self.ordered(position),
        };
        Some(Candidate {
            rule,
            root,
            from: position + 1,
            to,
        })
    }

    // The first candidate of all rules, in their order.
    pub fn first(self, root: usize) -> Option<Candidate<'a>>
        ensures some { IfSome result (λ c. (c.rule.table.words.now ≡ self.entry.words.now) × FirstIs self.entry.words.now root c.rule.number c.root c.from c.to) }
        ensures none { IfNone result (NoneFirst self.entry.words.now root) }
    {
        self.candidate(root, 0, self.rules())
    }
}

impl<'a> Rule<'a> {
    // Its row.
    fn row(self) -> &'a Row
        ensures { RowIs self.entry.table.words.now self.entry.number result.now }
    {
        &self.table.index.rows[self.number]
    }

    // Its action.
    pub fn action(self) -> u16
        ensures { ActionIs self.entry.table.words.now self.entry.number result }
    {
        self.row().action
    }

    // Its left. This and the next two are three functions: each has a contract of its own, and they share the making of a Span alone.
    #[tactic(auto, using(crate::proofs::IndexLaw::left_is))]
    pub fn left(self) -> Span
        ensures { PartIs left_words self.entry.table.words.now self.entry.number result.from result.to }
    {
        let row = self.row();
        Span {
            from: place(row.left),
            to: place(row.right),
        }
    }

    // Its right.
    #[tactic(auto, using(crate::proofs::IndexLaw::right_is_lem))]
    pub fn right(self) -> Span
        ensures { PartIs right_words self.entry.table.words.now self.entry.number result.from result.to }
    {
        let row = self.row();
        Span {
            from: place(row.right),
            to: place(row.conditions),
        }
    }

    // Its conditions.
    #[tactic(auto, using(crate::proofs::IndexLaw::conditions_are))]
    pub fn conditions(self) -> Span
        ensures { PartIs conditions_words self.entry.table.words.now self.entry.number result.from result.to }
    {
        let row = self.row();
        Span {
            from: place(row.conditions),
            to: place(row.end),
        }
    }

    // The sizes of its right.
    #[tactic(auto, using(crate::proofs::IndexLaw::sizes_are))]
    pub fn sizes(self) -> RightSizes
        ensures { SizesAre self.entry.table.words.now self.entry.number result.fixed result.leaves }
    {
        let row = self.row();
        RightSizes {
            fixed: usize::from(row.fixed),
            leaves: usize::from(row.leaves),
        }
    }
}

impl<'a> Candidate<'a> {
    // A rule behind which none is sought.
    pub fn alone(rule: Rule<'a>) -> Self
        ensures { (result.rule.table.words.now ≡ rule.entry.table.words.now) × (result.rule.number ≡ rule.entry.number) × (result.from ≡ 0) × (result.to ≡ 0) }
    {
        Candidate {
            rule,
            root: 0,
            from: 0,
            to: 0,
        }
    }

    // The next candidate, if there is one.
    pub fn next(self) -> Option<Candidate<'a>>
        ensures some { IfSome result (λ c. (c.rule.table.words.now ≡ self.entry.rule.table.words.now) × CandidateIs self.entry.rule.table.words.now self.entry.root self.entry.from self.entry.to c.rule.number c.root c.from c.to) }
        ensures none { IfNone result (SeekIs self.entry.rule.table.words.now self.entry.root self.entry.from self.entry.to self.entry.to) }
    {
        self.rule.table.candidate(self.root, self.from, self.to)
    }
}
