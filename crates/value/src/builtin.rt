// The built-in functions, on the roots of their arguments.
ghost use Rattle.std.specs.Prelude.{◌≡◌, ◌&&◌, ◌≤◌, cond, ℤ, Option};
ghost use Rattle.minuska.specs.Basics.{same_whole};
ghost use Rattle.minuska.specs.Term.{Label, Term, error, truth, whole, dictionary};
ghost use Rattle.minuska.specs.Function.{wrong_kind, truth_term, share_range, share_of};
ghost use Rattle.value.specs.Builtin.{label_of, root_of, number_term, applied, ByRoots};

use crate::rounding::nearest;
use term::{DICTIONARY, ERROR, SYMBOL, TRUTH, WHOLE};

// The largest amount of a number that z.share takes.
const SHARE_MOST: u64 = 2147483647;

// The root of a term: the two words of its first node.
#[derive(Clone, Copy, PartialEq, Eq)]
pub struct Root {
    pub tag: i64,
    pub datum: i64,
}

// The nodes that functions give, by the names of their terms: no conversions, so that the table of functions reads as the paper's.
impl Root {
    #[tactic(auto, unfolding(crate::specs::Builtin::root_of))]
    pub fn error() -> Root
        ensures { result ≡ root_of error }
    {
        Root {
            tag: ERROR,
            datum: 0,
        }
    }

    #[tactic(auto, unfolding(crate::specs::Builtin::root_of))]
    pub fn truth(holds: bool) -> Root
        ensures { result ≡ root_of (truth holds) }
    {
        Root {
            tag: TRUTH,
            datum: i64::from(holds),
        }
    }

    #[tactic(auto, unfolding(crate::specs::Builtin::root_of))]
    pub fn whole(z: i64) -> Root
        ensures { result ≡ root_of (whole z) }
    {
        Root {
            tag: WHOLE,
            datum: z,
        }
    }

    #[tactic(auto, unfolding(crate::specs::Builtin::root_of))]
    pub fn empty() -> Root
        ensures { result ≡ root_of (dictionary 0) }
    {
        Root {
            tag: DICTIONARY,
            datum: 0,
        }
    }
}

// The value of the function of a code; a code that names none, and an argument of another kind, give error. A lookup's value and an update's are not given by the
// roots of their arguments: see `lookup.rt`, `update.rt`. One match on the code, with its groups as ranges, is the form that the project's scope names: no enum of functions.
pub fn apply(code: usize, a: Root, b: Root, c: Root) -> Root
    requires { ByRoots code }
    ensures { result ≡ root_of (applied code (label_of a) (label_of b) (label_of c)) }
{
    match code {
        0 => Root::truth(true), // bool.true
        1 => Root::truth(false), // bool.false
        2 => neg(a),
        3 => truth_of_two(TRUTH, a, b, (a.datum == 1) & (b.datum == 1)), // bool.and
        4 => truth_of_two(TRUTH, a, b, (a.datum == 1) | (b.datum == 1)), // bool.or
        5 => truth_of_two(TRUTH, a, b, (a.datum == 1) == (b.datum == 1)), // bool.eq
        6 => Root::truth(a.tag == TRUTH), // bool.is
        7 => Root::truth(a.tag == WHOLE), // z.is
        8..=9 => arithmetic(code, a, b),
        10..=12 => comparison(code, a, b),
        13 => same_symbol(a, b),
        14 => share(a, b, c),
        15 => Root::empty(), // map.empty
        _ => Root::error(),
    }
}

// z.plus, z.minus.
fn arithmetic(code: usize, a: Root, b: Root) -> Root
    requires { (8 ≤ code) × (code ≤ 9) }
    ensures { (l : Label) → result ≡ root_of (applied code (label_of a) (label_of b) l) }
{
    if code == 8 {
        return plus(a, b);
    }
    minus(a, b)
}

// z.eq, z.le, z.lt.
fn comparison(code: usize, a: Root, b: Root) -> Root
    requires { (10 ≤ code) × (code ≤ 12) }
    ensures { (l : Label) → result ≡ root_of (applied code (label_of a) (label_of b) l) }
{
    if code == 10 {
        return truth_of_two(WHOLE, a, b, a.datum == b.datum);
    }
    if code == 11 {
        return truth_of_two(WHOLE, a, b, a.datum <= b.datum);
    }
    truth_of_two(WHOLE, a, b, a.datum < b.datum)
}

// bool.neg.
pub fn neg(a: Root) -> Root
    ensures { result ≡ root_of (applied 2 (label_of a) error error) }
{
    if a.tag == TRUTH {
        return Root::truth(a.datum != 1);
    }
    Root::error()
}

// Whether both nodes are of a kind.
pub fn both(kind: i64, a: Root, b: Root) -> bool
    ensures { result ≡ (same_whole a.tag kind && same_whole b.tag kind) }
{
    (a.tag == kind) & (b.tag == kind)
}

// A truth value, on two arguments of a kind. It makes two tests of its own: with `both` it is compiled to compute either answer and to choose.
pub fn truth_of_two(kind: i64, a: Root, b: Root, holds: bool) -> Root
    ensures { result ≡ root_of (cond (same_whole a.tag kind && same_whole b.tag kind) (truth_term holds) wrong_kind).label }
{
    if a.tag != kind {
        return Root::error();
    }
    if b.tag != kind {
        return Root::error();
    }
    Root::truth(holds)
}

// z.plus; a sum that does not fit a word gives error.
pub fn plus(a: Root, b: Root) -> Root
    ensures { result ≡ root_of (applied 8 (label_of a) (label_of b) error) }
{
    of_wholes(a, b, i64::checked_add)
}

// z.minus, in the same way.
pub fn minus(a: Root, b: Root) -> Root
    ensures { result ≡ root_of (applied 9 (label_of a) (label_of b) error) }
{
    of_wholes(a, b, i64::checked_sub)
}

// What a function of two whole numbers gives: its number, or error where there is none, and of other arguments. It is handed the function, not the number, and so is
// compiled as if it were written out in both: with the number, either answer is computed and one chosen; with `map_or` at its end, a sum takes one instruction more.
fn of_wholes<F: Fn(i64, i64) -> Option<i64>>(a: Root, b: Root, f: F) -> Root
    requires { F.IsAlwaysCallable f }
    ensures { (t : Term) → ((n : Option ℤ) → F.post f a.datum b.datum n → number_term n ≡ t) → result ≡ root_of (cond (same_whole a.tag WHOLE && same_whole b.tag WHOLE) t wrong_kind).label }
{
    if !both(WHOLE, a, b) {
        return Root::error();
    }
    let Some(number) = f(a.datum, b.datum) else {
        return Root::error();
    };
    Root::whole(number)
}

// term.same_symbol.
pub fn same_symbol(a: Root, b: Root) -> Root
    ensures { result ≡ root_of (applied 13 (label_of a) (label_of b) error) }
{
    if a.tag < SYMBOL || b.tag < SYMBOL {
        return Root::truth(false);
    }
    Root::truth(a.datum == b.datum)
}

// z.share.
pub fn share(a: Root, b: Root, c: Root) -> Root
    ensures { result ≡ root_of (applied 14 (label_of a) (label_of b) (label_of c)) }
{
    if both(WHOLE, a, b) && c.tag == WHOLE {
        return quotient(a.datum, b.datum, c.datum);
    }
    Root::error()
}

// The ranges of z.share.
pub fn in_range(a: i64, b: i64, c: i64) -> bool
    ensures { result ≡ share_range a b c }
{
    a.unsigned_abs() <= SHARE_MOST
        && b.unsigned_abs() <= SHARE_MOST
        && (1..=SHARE_MOST as i64).contains(&c)
}

// Within the ranges the product fits.
pub fn quotient(a: i64, b: i64, c: i64) -> Root
    ensures { result ≡ root_of (share_of a b c).label }
{
    if in_range(a, b, c) {
        return Root::whole(nearest(a * b, c));
    }
    Root::error()
}
