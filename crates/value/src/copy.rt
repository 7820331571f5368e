// Words written from the start of a slice; each gives how many.
ghost use Rattle.std.specs.Prelude.{◌≤◌, length, [], ◌∷◌};
ghost use Rattle.value.specs.Copy.{PutContract};

use crate::builtin::Root;

// Words as they are.
pub fn put_words(out: &mut [i64], words: &[i64]) -> usize
    requires { length words.now ≤ length out.old }
    ensures { PutContract out.old words.now out.new result }
{
    words::copy(out, 0, words);
    words.len()
}

// A node.
pub fn put_root(out: &mut [i64], root: Root) -> usize
    requires { 2 ≤ length out.old }
    ensures { PutContract out.old (root.tag ∷ root.datum ∷ []) out.new result }
{
    out[0] = root.tag;
    out[1] = root.datum;
    2
}
