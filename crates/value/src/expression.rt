// An expression's value needs its argument list, and an argument list its expressions: two functions that call each other.
ghost use Rattle.value.specs.Scope.{CallHere, EvaluateIs, ArgumentsHere, ArgumentsAre};

use crate::builtin::{Root, apply};
use crate::{Evaluated, Scope, Value};
use term::{CALL, LOOKUP};

impl<'a> Scope<'a> {
    // The value of a call, from its arguments, three at most, one behind the other: of a lookup from their values, of any other from their roots.
    #[cycle(arguments_expression)]
    pub(crate) fn expression(&self, at: usize) -> Evaluated
        requires { CallHere self.now at }
        ensures { EvaluateIs self.now at result }
    {
        let code = self.table[at + 1] as usize;
        let count = term::arity(code);
        let first = self.arguments(at + 2, 0 < count);
        let second = self.arguments(first.next, 1 < count);
        let third = self.arguments(second.next, 2 < count);
        let value = if code == LOOKUP {
            self.lookup(first.value, second.value)
        } else {
            let a = self.root(first.value);
            let b = self.root(second.value);
            let c = self.root(third.value);
            Value::Computed(apply(code, a, b, c))
        };
        Evaluated {
            value,
            next: third.next,
        }
    }

    // The value of the first of the arguments that stand from a place on, the rest behind it; where none is wanted, error. `wanted` is a flag: three calls stand in a row, and an Option would be asked
    // for its place behind in each. The last lines are those of `evaluate`, which is not in this cycle: with it there, inlined, the proof closes, and a share a step takes 677 instructions for 675.
    #[cycle(arguments_expression)]
    fn arguments(&self, at: usize, wanted: bool) -> Evaluated
        requires { ArgumentsHere self.now at wanted }
        ensures { ArgumentsAre self.now at wanted result }
    {
        if !wanted {
            return Evaluated {
                value: Value::Computed(Root::error()),
                next: at,
            };
        }
        if self.table[at] == CALL {
            return self.expression(at);
        }
        self.leaf(at)
    }
}
