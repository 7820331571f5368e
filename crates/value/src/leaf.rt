// Values that need no recursion: a variable's and a literal's; and a value's root.
ghost use Rattle.std.specs.Prelude.{◌≡◌, ◌+◌, ◌<◌, length};
ghost use Rattle.value.specs.Root.{root_at};
ghost use Rattle.value.specs.Scope.{LeafHere, LeafIs, IsValueHere, IsRootOf};

use crate::builtin::Root;
use crate::{Evaluated, Scope, Value};
use term::{Span, VARIABLE};

impl<'a> Scope<'a> {
    // The value of a variable or a literal.
    pub fn leaf(&self, at: usize) -> Evaluated
        requires { LeafHere self.now at }
        ensures { LeafIs self.now at result }
    {
        if self.table[at] == VARIABLE {
            return Evaluated {
                value: Value::Configuration(self.places.part(self.table[at + 1] as usize)),
                next: at + 2,
            };
        }
        let end = term::ground_end(self.table, at);
        Evaluated {
            value: Value::Table(Span { from: at, to: end }),
            next: end,
        }
    }

    // The root of a value.
    pub fn root(&self, v: Value) -> Root
        requires { IsValueHere self.now v }
        ensures { IsRootOf self.now v result }
    {
        match v {
            Value::Table(part) => root_at(self.table, part.from),
            Value::Configuration(part) => root_at(self.configuration, part.from),
            Value::Computed(root) => root,
        }
    }
}

// The node that stands at a place: two words of many, so no conversion.
#[tactic(auto, unfolding(crate::specs::Root::root_at))]
pub fn root_at(s: &[i64], at: usize) -> Root
    requires { at + 1 < length s.now }
    ensures { result ≡ root_at s.now at }
{
    Root {
        tag: s[at],
        datum: s[at + 1],
    }
}
