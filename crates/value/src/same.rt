// Whether two values have the same words.
ghost use Rattle.std.specs.Prelude.{◌≡◌, ◌+◌};
ghost use Rattle.minuska.specs.Bridge.Place.{Decides};
ghost use Rattle.value.specs.Scope.{IsWithin, IsValueHere, IsNodeHere, words_of};
ghost use Rattle.value.specs.Value.{own_words};

use crate::leaf::root_at;
use crate::{Scope, Value};

impl Value {
    // The two words of a computed value.
    #[tactic(auto, unfolding(crate::specs::Value::own_words))]
    fn own_words(self) -> [i64; 2]
        ensures { result ≡ own_words self }
    {
        match self {
            Value::Computed(root) => [root.tag, root.datum],
            _ => [0, 0],
        }
    }
}

impl<'a> Scope<'a> {
    // Whether two values have the same words: no copy of a part is made.
    pub(crate) fn same(&self, a: Value, b: Value) -> bool
        requires { IsWithin self.now a × IsWithin self.now b }
        ensures { Decides result (words_of self.now a ≡ words_of self.now b) }
    {
        let x = a.own_words();
        let y = b.own_words();
        words::same(self.words(&x, a), self.words(&y, b))
    }

    // A value's words: its part, or, of a computed value, its own.
    #[tactic(auto, unfolding(crate::specs::Value::own_words, crate::specs::Value::value_words, crate::specs::Value::part_words))]
    fn words<'b>(&'b self, own: &'b [i64], v: Value) -> &'b [i64]
        requires { IsWithin self.now v × (own.now ≡ own_words v) }
        ensures { result.now ≡ words_of self.now v }
    {
        match v {
            Value::Computed(_) => own,
            _ => self.part(v),
        }
    }

    // Whether a value is the one node that stands at a place of the table: their roots are compared.
    pub(crate) fn is_node(&self, v: Value, at: usize) -> bool
        requires { IsValueHere self.now v × IsNodeHere self.now at }
        ensures { Decides result (words_of self.now v ≡ words_of self.now (Value.Table (record { from = at; to = at + 2 }))) }
    {
        self.root(v) == root_at(self.table, at)
    }
}
