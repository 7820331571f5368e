// The words of a right under a match, item by item in preorder.
ghost use Rattle.std.specs.Prelude.{◌+◌, ◌≤◌, ◌<◌, ◌^◌, length};
ghost use Rattle.minuska.specs.Bridge.Place.{Decides};
ghost use Rattle.step.specs.Right.{RestHere, SomePiece, PieceIs, IsUpdate, NoUpdate, OneNodeIs, MeasureRightIsHere, FittingRestHere, WriteRightIsHere};

use term::Span;
use term::places::Places;
use value::builtin::Root;
use value::{Evaluated, Scope, Value};

// The codes of the functions whose value is not one node, as words: a lookup's is a part of either slice, an update's is no part of any.
const LOOKUP: i64 = term::LOOKUP as i64;

const UPDATE: i64 = term::UPDATE as i64;

// One item that is no call, where it lies: a variable's part of the configuration, or a node's two words of the table.
fn piece(table: &[i64], at: usize, places: &Places) -> Evaluated
    requires { SomePiece table.now places.now.starts places.now.ends at }
    ensures { PieceIs table.now places.now.starts places.now.ends at result }
{
    let next = at + 2;
    if table[at] == term::VARIABLE {
        let part = places.part(table[at + 1] as usize);
        return Evaluated {
            value: Value::Configuration(part),
            next,
        };
    }
    Evaluated {
        value: Value::Table(Span { from: at, to: next }),
        next,
    }
}

// Whether an update stands at a place.
fn is_update(table: &[i64], at: usize) -> bool
    requires { at + 2 ≤ length table.now }
    ensures { Decides result (IsUpdate table.now at) }
{
    table[at] == term::CALL && table[at + 1] == UPDATE
}

// How many words an item has, and the place behind it.
#[derive(Clone, Copy)]
pub struct Sized {
    pub words: usize,
    pub next: usize,
}

// Whether a call stands at a place whose value is one node, whatever its arguments are worth: so is every call's but a lookup's and an update's. Such a call is
// measured without its value.
fn gives_one_node(table: &[i64], at: usize) -> bool
    requires { at + 2 ≤ length table.now }
    ensures { OneNodeIs table.now at result }
{
    table[at] == term::CALL && table[at + 1] != LOOKUP && table[at + 1] != UPDATE
}

// An update's arguments' values, a dictionary, a key and a term, and the place behind it.
#[derive(Clone, Copy)]
pub struct Parts {
    pub dictionary: Value,
    pub key: Value,
    pub term: Value,
    pub next: usize,
}

// The items of a right: over what they are worked out, and where they end. That the rest of a right stands from a place on is asked by each method, and is no ghost
// field: a ghost field's fact has one proof at most, and this one has a valuation for a witness, of which there are more. That the table is short is one, since the
// check does not know it of a slice behind two references.
#[derive(Clone, Copy)]
struct Items<'a> {
    scope: &'a Scope<'a>,
    end: usize,
    ghost short: { length scope.now.table.now < 2 ^ 60 },
}

impl Items<'_> {
    ghost use Rattle.step.specs.Items.{ItemStands, ItemIsAt, PartsAreAt, SizedIsAt, FittingItemAt, WriteItemIsAt};

    // One item that is no update: a call's value; else where it lies.
    fn item(self, at: usize) -> Evaluated
        requires { ItemStands self at × NoUpdate self.scope.now.table.now at }
        ensures { ItemIsAt self.entry at result }
    {
        if self.scope.table[at] == term::CALL {
            return self.scope.evaluate(at);
        }
        piece(self.scope.table, at, self.scope.places)
    }

    // The values of the arguments of the update that stands at a place.
    fn update_parts(self, at: usize) -> Parts
        requires { ItemStands self at × IsUpdate self.scope.now.table.now at }
        ensures { PartsAreAt self.entry at result }
    {
        let dictionary = self.scope.evaluate(at + 2);
        let key = self.scope.evaluate(dictionary.next);
        let term = self.scope.evaluate(key.next);
        Parts {
            dictionary: dictionary.value,
            key: key.value,
            term: term.value,
            next: term.next,
        }
    }

    // An update's size.
    fn update_size(self, at: usize) -> Sized
        requires { ItemStands self at × IsUpdate self.scope.now.table.now at }
        ensures { SizedIsAt self.entry at result }
    {
        let p = self.update_parts(at);
        let plan = self.scope.plan(p.dictionary, p.key);
        Sized {
            words: self.scope.plan_size(p.dictionary, plan, p.term),
            next: p.next,
        }
    }

    // One item's size.
    fn item_size(self, at: usize) -> Sized
        requires { ItemStands self at }
        ensures { SizedIsAt self.entry at result }
    {
        if gives_one_node(self.scope.table, at) {
            return Sized {
                words: 2,
                next: value::short::call_end(self.scope.table, at),
            };
        }
        if is_update(self.scope.table, at) {
            return self.update_size(at);
        }
        let x = self.item(at);
        Sized {
            words: x.value.size(),
            next: x.next,
        }
    }

    // An update's words. Not inlined: the places of its parts would be reckoned in front of the loop over a right's items, 13 instructions more in a short step of 574.
    #[inline(never)]
    fn write_update(self, at: usize, out: &mut [i64]) -> Sized
        requires { FittingItemAt self at (length out.old) × IsUpdate self.scope.now.table.now at }
        ensures { WriteItemIsAt self.entry at out.old out.new result }
    {
        let p = self.update_parts(at);
        let plan = self.scope.plan(p.dictionary, p.key);
        Sized {
            words: self.scope.put_plan(out, p.dictionary, plan, p.term),
            next: p.next,
        }
    }

    // Writes one item's words from the start of out.
    fn write_item(self, at: usize, out: &mut [i64]) -> Sized
        requires { FittingItemAt self at (length out.old) }
        ensures { WriteItemIsAt self.entry at out.old out.new result }
    {
        if is_update(self.scope.table, at) {
            return self.write_update(at, out);
        }
        self.write_value(at, out)
    }

    // The words of an item that is no update: a short call's two as they are computed, a node's two, else those of the item's value.
    fn write_value(self, at: usize, out: &mut [i64]) -> Sized
        requires { FittingItemAt self at (length out.old) × NoUpdate self.scope.now.table.now at }
        ensures { WriteItemIsAt self.entry at out.old out.new result }
    {
        let tag = self.scope.table[at];
        if tag == term::CALL {
            if value::short::is_short_call(self.scope.table, at) {
                let root = self.scope.short_call(at);
                return Sized {
                    words: self.scope.put(out, Value::Computed(root)),
                    next: at + 6,
                };
            }
        } else if tag != term::VARIABLE {
            let datum = self.scope.table[at + 1];
            let node = Value::Computed(Root { tag, datum });
            return Sized {
                words: self.scope.put(out, node),
                next: at + 2,
            };
        }
        let x = self.item(at);
        Sized {
            words: self.scope.put(out, x.value),
            next: x.next,
        }
    }
}

// Whether there is room for the words of the items of a right. Measuring and writing stay two walks: a trait over their loops would share eight lines, since neither
// does at an item what the other does. An item as a value of its own, an enum that has a size and puts its words, was tried: it proves, but had 41 lines more here, 42
// more of proofs, and 3 to 5 instructions more in a short step of 581 or 734.
pub fn measure_right(scope: &Scope, right: Span, room: usize) -> bool
    requires { RestHere scope.now right.from right.to }
    ensures { MeasureRightIsHere scope.now right.from right.to room result }
{
    let items = Items {
        scope,
        end: right.to,
    };
    let mut i = right.from;
    let mut left = room;
    // A while loop: each item says where the next begins.
    while i < items.end {
        let x = items.item_size(i);
        if left < x.words {
            return false;
        }
        left -= x.words;
        i = x.next;
    }
    true
}

// Writes the words of the items of a right from the start of out, and says how many.
pub fn write_right(scope: &Scope, right: Span, out: &mut [i64]) -> usize
    requires { FittingRestHere scope.now right.from right.to (length out.old) }
    ensures { WriteRightIsHere scope.now right.from right.to out.old out.new result }
{
    let items = Items {
        scope,
        end: right.to,
    };
    let mut i = right.from;
    let mut o: usize = 0;
    // A while loop: each item says where the next begins.
    while i < items.end {
        let x = items.write_item(i, &mut out[o..]);
        o += x.words;
        i = x.next;
    }
    o
}
