// The calls: each prints the answer, and every lent slice whole. A list held 44 before, out 77, spare 66, choices 99, work 55.
use crate::build::{at_most, number};
use crate::show;
use crate::text::front;
use std::io;
use term::{LOOKUP, UPDATE};
use value::builtin::Root;

// What the lines so far have kept, and the numbers of a call's line.
#[derive(Clone, Copy)]
pub struct Call<'a> {
    pub table: &'a [i64],
    pub configuration: &'a [i64],
    pub log: &'a [u16],
    pub numbers: [i64; 8],
}

impl<'a> Call<'a> {
    // A function's code, and the nodes of three arguments. A lookup and an update take whole dictionaries: they are run by steps.
    pub fn value(self, rt: &impl Print) -> io::Result<()> {
        let [code, a, x, b, y, c, z, _] = self.numbers;
        let code = number(code);
        if code == LOOKUP || code == UPDATE {
            return print!(rt; "not of single nodes");
        }
        let first = Root { tag: a, datum: x };
        let second = Root { tag: b, datum: y };
        let third = Root { tag: c, datum: z };
        let value = show::Value(value::builtin::apply(code, first, second, third));
        print!(rt; "{value}")
    }

    // The part at a place: its length, and its first words.
    pub fn part(self, rt: &impl Print) -> io::Result<()> {
        let words = term::subterm(self.configuration, number(self.numbers[0]));
        print!(rt; "words {}", words.len())?;
        show::slice(rt, ";", front(words, 4))
    }

    // A rule's left against the configuration: the rule's number. No slice is written.
    pub fn left(self, rt: &impl Print) -> io::Result<()> {
        let rule = number(self.numbers[0]);
        show::answer(
            rt,
            step::match_rule(self.table, self.configuration, rule).map(show::Matched),
        )
    }

    // Why each rule does not apply, with so many words of list.
    pub fn reasons(self, rt: &impl Print) -> io::Result<()> {
        let mut words = [44i64; 600];
        let list = &mut words[..at_most(self.numbers[0], 600)];
        show::answer(
            rt,
            step::reasons(self.table, self.configuration, list).map(show::Reasons),
        )?;
        show::slice(rt, "; list", list)
    }

    // A step by the earliest rule, with so many words of out.
    pub fn step(self, rt: &impl Print) -> io::Result<()> {
        let mut words = [77i64; 90000];
        let out = &mut words[..at_most(self.numbers[0], 90000)];
        show::answer(
            rt,
            step::step(self.table, self.configuration, out).map(show::Step),
        )?;
        show::slice(rt, "; out", out)
    }

    // A step by one given rule: its number, and the length of out.
    pub fn rule(self, rt: &impl Print) -> io::Result<()> {
        let rule = number(self.numbers[0]);
        let mut words = [77i64; 90000];
        let out = &mut words[..at_most(self.numbers[1], 90000)];
        show::answer(
            rt,
            step::step_by_rule(self.table, self.configuration, rule, out).map(show::Step),
        )?;
        show::slice(rt, "; out", out)
    }

    // A run: budget, N, and the lengths of out and spare.
    pub fn run(self, rt: &impl Print) -> io::Result<()> {
        let budget = number(self.numbers[0]);
        let limit = number(self.numbers[1]);
        let mut words = [77i64; 65540];
        let mut more = [66i64; 65540];
        let out = &mut words[..at_most(self.numbers[2], 65540)];
        let spare = &mut more[..at_most(self.numbers[3], 65540)];
        show::answer(
            rt,
            run::run(self.table, self.configuration, budget, limit, out, spare).map(show::Run),
        )?;
        show::slice(rt, "; out", out)?;
        show::slice(rt, "; spare", spare)
    }

    // A replay: N, and the lengths of out, choices and work.
    pub fn replay(self, rt: &impl Print) -> io::Result<()> {
        let limit = number(self.numbers[0]);
        let mut words = [77i64; 65540];
        let mut picks = [99u16; 4200];
        let mut more = [55i64; 165000];
        let out = &mut words[..at_most(self.numbers[1], 65540)];
        let choices = &mut picks[..at_most(self.numbers[2], 4200)];
        let work = &mut more[..at_most(self.numbers[3], 165000)];
        let answer = replay::replay(
            self.table,
            self.configuration,
            self.log,
            limit,
            out,
            choices,
            work,
        );
        show::answer(rt, answer.map(show::Replay))?;
        show::slice(rt, "; picks", choices)?;
        show::slice(rt, "; out", out)?;
        show::slice(rt, "; work", work)
    }
}
