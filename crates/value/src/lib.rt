// The value of an expression over a lent table and a lent configuration, and a side condition.
#![tactic(auto)]

ghost use Rattle.std.specs.Prelude.{◌≡◌, ◌≤◌, length};
ghost use Rattle.value.specs.Copy.{PutContract};
ghost use Rattle.value.specs.Scope.{ExpressionHere, EvaluateIs, ConditionHere, ConditionIs, IsWithin, words_of, part_of};
ghost use Rattle.value.specs.Value.{size_of, Ordered};

use builtin::Root;
use copy::{put_root, put_words};
use term::places::Places;
use term::{CALL, Span, VARIABLE};

pub mod builtin; // the functions whose value is one node
mod copy; // words written into a slice
mod expression; // a call's value and its argument list
pub mod leaf; // values that need no recursion
pub mod lookup; // a value in a dictionary
mod rounding; // a quotient to the nearest
mod same; // whether two values are the same
mod search; // a key among a dictionary's entries
pub mod short; // calls whose value needs no recursion
pub mod update; // a dictionary with an entry put in

// Where a value is: a part of the table or of the configuration; or a node that was computed. Places and no slices: a value is "a part of whichever slice holds it" (document 02), and clauses name the
// part.
#[derive(Clone, Copy)]
pub enum Value {
    Table(Span),
    Configuration(Span),
    Computed(Root),
}

impl Value {
    // How many words it has.
    #[tactic(auto, unfolding(crate::specs::Value::Ordered, crate::specs::Value::size_of))]
    pub fn size(self) -> usize
        requires { Ordered self }
        ensures { result ≡ size_of self }
    {
        match self {
            Value::Table(part) => part.to - part.from,
            Value::Configuration(part) => part.to - part.from,
            Value::Computed(_) => 2,
        }
    }
}

// An expression's value, and the place behind the expression. A type beside `Tested` and the size of an item in `step`, which have a place behind them too: one generic type would call a value, a
// truth and a count by one name.
#[derive(Clone, Copy)]
pub struct Evaluated {
    pub value: Value,
    pub next: usize,
}

// Whether a side condition holds, and the place behind it. No Option: `next` is promised of a condition that fails, too.
#[derive(Clone, Copy)]
pub struct Tested {
    pub holds: bool,
    pub next: usize,
}

// What the expressions of a table are evaluated over: a configuration, and its parts to which a match has bound their variables.
#[derive(Clone, Copy)]
pub struct Scope<'a> {
    pub table: &'a [i64],
    pub configuration: &'a [i64],
    pub places: &'a Places,
}

impl<'a> Scope<'a> {
    // The value of the expression that stands at a place of the table.
    pub fn evaluate(&self, at: usize) -> Evaluated
        requires { ExpressionHere self.now at }
        ensures { EvaluateIs self.now at result }
    {
        if self.table[at] == CALL {
            return self.expression(at);
        }
        self.leaf(at)
    }

    // A value's words, uncopied, in whichever slice holds them; a computed value has none there.
    #[tactic(auto, unfolding(crate::specs::Value::Within, crate::specs::Value::part_words))]
    pub fn part(&self, v: Value) -> &'a [i64]
        requires { IsWithin self.now v }
        ensures { result.now ≡ part_of self.now v }
    {
        match v {
            Value::Table(part) => &self.table[part.from..part.to],
            Value::Configuration(part) => &self.configuration[part.from..part.to],
            Value::Computed(_) => &self.table[0..0],
        }
    }

    // Whether the side condition that stands at a place, two expressions one behind the other, holds. A second side that is a literal without children is compared
    // with the first's root; a first side that is a short call is evaluated here.
    pub fn condition(&self, at: usize) -> Tested
        requires { ConditionHere self.now at }
        ensures { ConditionIs self.now at result }
    {
        if self.table[at] == CALL
            && short::is_short_call(self.table, at)
            && self.table[at + 6] < VARIABLE
        {
            let root = self.short_call(at);
            return Tested {
                holds: self.is_node(Value::Computed(root), at + 6),
                next: at + 8,
            };
        }
        let first = self.evaluate(at);
        if self.table[first.next] < VARIABLE {
            return Tested {
                holds: self.is_node(first.value, first.next),
                next: first.next + 2,
            };
        }
        let second = self.evaluate(first.next);
        Tested {
            holds: self.same(first.value, second.value),
            next: second.next,
        }
    }

    // A value's words are written from the start of a slice; how many.
    pub fn put(&self, out: &mut [i64], v: Value) -> usize
        requires { IsWithin self.now v × (size_of v ≤ length out.old) }
        ensures { PutContract out.old (words_of self.now v) out.new result }
    {
        match v {
            Value::Computed(root) => put_root(out, root),
            _ => put_words(out, self.part(v)),
        }
    }
}
