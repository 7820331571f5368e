// A lookup: the value at a key, a part of whichever slice holds the dictionary, uncopied.
ghost use Rattle.value.specs.Lookup.{TermIn, FoundIs};
ghost use Rattle.value.specs.Scope.{IsValueHere, LookupIs};

use crate::builtin::Root;
use crate::search::search;
use crate::{Scope, Value};
use term::{DICTIONARY, Span, WHOLE};

impl<'a> Scope<'a> {
    // The value of a lookup of a key in a dictionary, by their values; error if it has no such key, or if they are of another kind. A computed dictionary is empty.
    pub fn lookup(&self, d: Value, k: Value) -> Value
        requires { IsValueHere self.now d × IsValueHere self.now k }
        ensures { LookupIs self.now d k result }
    {
        let key = self.root(k);
        let error = Value::Computed(Root::error());
        if key.tag != WHOLE {
            return error;
        }
        match d {
            Value::Table(part) => {
                find(self.table, part.from, key.datum).map_or(error, Value::Table)
            }
            Value::Configuration(part) => {
                find(self.configuration, part.from, key.datum).map_or(error, Value::Configuration)
            }
            Value::Computed(_) => error,
        }
    }
}

// Where the value at a key stands, in the dictionary that stands at a place; a term of another kind has none.
pub fn find(s: &[i64], at: usize, key: i64) -> Option<Span>
    requires { TermIn s.now at }
    ensures { FoundIs s.now at key result }
{
    if s[at] != DICTIONARY {
        return None;
    }
    let entry = search(s, at + 2, s[at + 1] as usize, key).ok()?;
    Some(Span {
        from: entry.from + 2,
        to: entry.to,
    })
}
