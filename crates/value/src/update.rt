// An update: where its entry goes among a dictionary's entries, its size before a word is written, and its words.
ghost use Rattle.std.specs.Prelude.{◌≡◌, ◌+◌, ◌≤◌, pos, length, drop, [], ◌∷◌, ◌++◌, Some};
ghost use Rattle.value.specs.Copy.{PutContract};
ghost use Rattle.value.specs.Scope.{IsValueHere, IsWithin, PlanIs, PlanFitsHere, words_of};
ghost use Rattle.value.specs.Update.{plan_words};

use crate::builtin::Root;
use crate::copy::{put_root, put_words};
use crate::search::search;
use crate::{Scope, Value};
use term::{DICTIONARY, MAX_ENTRIES, Span, WHOLE};

// An update that is not worth error: the part of the dictionary's entries that its entry takes the place of, how many entries there are then, and its key. The part's
// places are counted from the first key on.
#[derive(Clone, Copy)]
pub struct Plan {
    pub replaced: Span,
    pub count: usize,
    pub key: i64,
}

impl<'a> Scope<'a> {
    // What an update of a dictionary at a key is worth, by their values, whatever the new value is; error, None, if they are of another kind, or if the key is the
    // sixty-fifth.
    pub fn plan(&self, d: Value, k: Value) -> Option<Plan>
        requires { IsValueHere self.now d × IsValueHere self.now k }
        ensures { PlanIs self.now d k result }
    {
        let key = self.root(k);
        let head = self.root(d);
        if key.tag != WHOLE || head.tag != DICTIONARY {
            return None;
        }
        let n = head.datum as usize;
        let (replaced, count) = match search(self.entry_words(d), 0, n, key.datum) {
            Ok(entry) => (entry, n),
            Err(at) => (Span { from: at, to: at }, n + 1),
        };
        if count > MAX_ENTRIES as usize {
            return None;
        }
        Some(Plan {
            replaced,
            count,
            key: key.datum,
        })
    }

    // The words of a value behind its first node: of a dictionary, its entries.
    fn entry_words(&self, v: Value) -> &'a [i64]
        requires { IsValueHere self.now v }
        ensures { result.now ≡ drop 2 (words_of self.now v) }
    {
        match v {
            Value::Computed(_) => &self.table[0..0],
            _ => &self.part(v)[2..],
        }
    }

    // How many words an update has.
    pub fn plan_size(&self, d: Value, plan: Option<Plan>, v: Value) -> usize
        requires { IsValueHere self.now d × IsWithin self.now v × PlanFitsHere self.now d plan }
        ensures { result ≡ length (plan_words (words_of self.now d) plan (words_of self.now v)) }
    {
        let Some(plan) = plan else {
            return 2;
        };
        let behind = self.entry_words(d).len() - plan.replaced.to;
        4 + plan.replaced.from + v.size() + behind
    }

    // An update's words are written from the start of a slice; how many.
    pub fn put_plan(&self, out: &mut [i64], d: Value, plan: Option<Plan>, v: Value) -> usize
        requires { IsValueHere self.now d × IsWithin self.now v × PlanFitsHere self.now d plan × (length (plan_words (words_of self.now d) plan (words_of self.now v)) ≤ length out.old) }
        ensures { PutContract out.old (plan_words (words_of self.now d) plan (words_of self.now v)) out.new result }
    {
        let Some(plan) = plan else {
            return put_root(out, Root::error());
        };
        let words = self.entry_words(d);
        let a = put_front(out, &words[..plan.replaced.from], plan.count, plan.key);
        let e = a + self.put(&mut out[a..], v);
        e + put_words(&mut out[e..], &words[plan.replaced.to..])
    }
}

// A dictionary's root, the words in front of an entry, and the entry's key; how many.
fn put_front(out: &mut [i64], words: &[i64], count: usize, key: i64) -> usize
    requires { (count ≤ 65) × (4 + length words.now ≤ length out.old) }
    ensures { PutContract out.old ((pos 5 ∷ pos count ∷ words.now) ++ (pos 2 ∷ key ∷ [])) out.new result }
{
    let head = Root {
        tag: DICTIONARY,
        datum: count as i64,
    };
    let a = put_root(out, head);
    let b = a + put_words(&mut out[a..], words);
    b + put_root(&mut out[b..], Root::whole(key))
}
