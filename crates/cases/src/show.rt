// Printing: an answer by its word and numbers, and a slice whole, three or more equal words as one group.

use minuska::{MatchAnswer, Refusal, ReplayAnswer, RunAnswer, Stepped};
use std::{fmt, io};
use value::builtin::Root;

// What an answer is in words.
#[derive(Clone, Copy)]
pub struct Good;

#[derive(Clone, Copy)]
pub struct Matched(pub MatchAnswer);

#[derive(Clone, Copy)]
pub struct Reasons(pub Option<usize>);

#[derive(Clone, Copy)]
pub struct Step(pub Option<Stepped>);

#[derive(Clone, Copy)]
pub struct Run(pub RunAnswer);

#[derive(Clone, Copy)]
pub struct Replay(pub ReplayAnswer);

impl fmt::Display for Good {
    fn fmt<W: fmt::Write>(&self, f: &mut fmt::Formatter<W>) -> fmt::Result {
        write!(f, "good")
    }
}

impl fmt::Display for Matched {
    fn fmt<W: fmt::Write>(&self, f: &mut fmt::Formatter<W>) -> fmt::Result {
        match self.0 {
            MatchAnswer::Matches(k) => write!(f, "matches {k}"),
            MatchAnswer::Differs(k) => write!(f, "differs {k}"),
        }
    }
}

impl fmt::Display for Reasons {
    fn fmt<W: fmt::Write>(&self, f: &mut fmt::Formatter<W>) -> fmt::Result {
        match self.0 {
            None => write!(f, "listed"),
            Some(rule) => write!(f, "not stuck {rule}"),
        }
    }
}

impl fmt::Display for Step {
    fn fmt<W: fmt::Write>(&self, f: &mut fmt::Formatter<W>) -> fmt::Result {
        match self.0 {
            Some(
                Stepped {
                    rule,
                    action,
                    nodes,
                },
            ) => write!(f, "stepped {rule} {action} {nodes}"),
            None => write!(f, "stuck"),
        }
    }
}

impl fmt::Display for Run {
    fn fmt<W: fmt::Write>(&self, f: &mut fmt::Formatter<W>) -> fmt::Result {
        match self.0 {
            RunAnswer::Stuck(k) => write!(f, "stuck {k}"),
            RunAnswer::Spent(k) => write!(f, "spent {k}"),
            RunAnswer::Over(k) => write!(f, "over {k}"),
        }
    }
}

impl fmt::Display for Replay {
    fn fmt<W: fmt::Write>(&self, f: &mut fmt::Formatter<W>) -> fmt::Result {
        match self.0 {
            ReplayAnswer::Reproduced => write!(f, "reproduced"),
            ReplayAnswer::NotReproduced => write!(f, "not reproduced"),
        }
    }
}

// A function's value: error, a truth value, a whole number or the empty dictionary.
#[derive(Clone, Copy)]
pub struct Value(pub Root);

impl fmt::Display for Value {
    fn fmt<W: fmt::Write>(&self, f: &mut fmt::Formatter<W>) -> fmt::Result {
        let datum = self.0.datum;
        // The tags are words of the format, by `term`'s names for them: an enum would be made of them by the same match.
        match self.0.tag {
            term::ERROR => write!(f, "error"),
            term::TRUTH => write!(f, "{}", datum == 1),
            term::WHOLE => write!(f, "{datum}"),
            _ => write!(f, "empty dictionary"),
        }
    }
}

// An answer, or why the call was refused.
pub fn answer<T: fmt::Display + Drop>(
    rt: &impl Print,
    answer: Result<T, Refusal>,
) -> io::Result<()> {
    match answer {
        Ok(answer) => print!(rt; "{answer}"),
        Err(refusal) => print!(rt; "refused {}", u64::from(refusal)),
    }
}

// A slice, whole.
pub fn slice<T: fmt::Display + PartialEq>(
    rt: &impl Print,
    name: &str,
    items: &[T],
) -> io::Result<()> {
    print!(rt; "{name}")?;
    for group in items.chunk_by(|a, b| a == b) {
        let first = &group[0];
        match group.len() {
            1 => print!(rt; " {first}")?,
            2 => print!(rt; " {first} {first}")?,
            n => print!(rt; " {first}x{n}")?,
        }
    }
    Ok(())
}
