// A call of two arguments that are variables or literals without children, as most calls are: its value needs no recursion. A lookup is none: its value is not known
// from the roots of its arguments.
ghost use Rattle.std.specs.Prelude.{◌≡◌, true};
ghost use Rattle.term.specs.TermAt.{TermEnds};
ghost use Rattle.value.specs.Scope.{ShortHere, ShortIs, ArgumentHere, ArgumentIs};
ghost use Rattle.value.specs.Short.{CallThere, Short};

use crate::Scope;
use crate::builtin::{Root, apply};
use crate::leaf::root_at;
use term::{CALL, LOOKUP, VARIABLE};

// Whether the call that stands at a place is such a call. A no is no promise: the value is then had by recursion, which any call's can be.
pub fn is_short_call(table: &[i64], at: usize) -> bool
    requires { CallThere table.now at }
    ensures { result ≡ true → Short table.now at }
{
    let code = table[at + 1] as usize;
    if term::arity(code) != 2 || code == LOOKUP {
        return false;
    }
    table[at + 2] < CALL && table[at + 4] < CALL
}

impl<'a> Scope<'a> {
    // The root of its value.
    pub fn short_call(&self, at: usize) -> Root
        requires { ShortHere self.now at }
        ensures { ShortIs self.now at result }
    {
        let code = self.table[at + 1] as usize;
        let a = self.short_root(at + 2);
        let b = self.short_root(at + 4);
        apply(code, a, b, Root::error())
    }

    // The root of such an argument's value.
    fn short_root(&self, at: usize) -> Root
        requires { ArgumentHere self.now at }
        ensures { ArgumentIs self.now at result }
    {
        if self.table[at] == VARIABLE {
            let part = self.places.part(self.table[at + 1] as usize);
            return root_at(self.configuration, part.from);
        }
        root_at(self.table, at)
    }
}

// The place behind the call that stands at a place: a short call has six words.
pub fn call_end(table: &[i64], at: usize) -> usize
    requires { CallThere table.now at }
    ensures { TermEnds table.now at result }
{
    if is_short_call(table, at) {
        return at + 6;
    }
    term::expression_end(table, at)
}
