// A key among the entries of a dictionary.
ghost use Rattle.value.specs.Search.{EntriesIn, SearchIs};

use term::Span;

// The entry with a key, a part of the slice; or the place where such an entry would start. `n` entries stand at `at`. Their keys rise, so that a greater one ends the walk.
// No `binary_search`: entries have lengths of their own, and are found one behind the other.
pub fn search(s: &[i64], at: usize, n: usize, key: i64) -> Result<Span, usize>
    requires { EntriesIn s.now at n }
    ensures { SearchIs s.now at n key result }
{
    let mut i = at;
    for _ in 0..n {
        let here = s[i + 1];
        if key < here {
            return Err(i);
        }
        let to = term::ground_end(s, i + 2);
        if key == here {
            return Ok(Span { from: i, to });
        }
        i = to;
    }
    Err(i)
}
