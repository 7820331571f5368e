// One number at a place of a line.
ghost use Rattle.std.specs.Prelude.{◌≡◌, drop};
ghost use Rattle.decimal.specs.Computed.Number.{digit_of, digits_from, natural_from, signed_from, is_end};
ghost use Rattle.decimal.specs.Number.{NumberContract};

// A number that was read, of 64 bits beside its sign, and the place behind it.
#[derive(Clone, Copy, Debug, PartialEq, Eq)]
pub struct Reading {
    pub number: i128,
    pub end: usize,
}

// A byte's digit.
#[tactic(auto, unfolding(crate::specs::Computed::Number::digit_of))]
fn digit_of(byte: u8) -> Option<u64>
    ensures { result ≡ digit_of byte }
{
    char::from(byte).to_digit(10).map(u64::from)
}

// The digits at a place, behind a number that was read, and their end. What would leave 64 bits is no number.
#[tactic(auto, using(crate::proofs::NumberTurn::digits_at, crate::proofs::NumberTurn::digits_end))]
fn digits_from(line: &[u8], at: usize, first: u64) -> Option<(u64, usize)>
    ensures { result ≡ digits_from first at (drop at line.now) }
{
    let mut value = first;
    // By places: one behind the line's end is taken too, where `line[at..]` would not stand.
    for i in at..line.len() {
        let Some(digit) = digit_of(line[i]) else {
            return Some((value, i));
        };
        value = value.checked_mul(10)?.checked_add(digit)?;
    }
    Some((value, at.max(line.len())))
}

// A zero by itself, or digits that do not begin with one. A pair, which is taken apart at once: in a `Reading` the number would lose its bound of 64 bits.
#[tactic(auto, using(crate::proofs::NumberTurn::natural_at, crate::proofs::NumberTurn::natural_end))]
fn natural_at(line: &[u8], at: usize) -> Option<(u64, usize)>
    ensures { result ≡ natural_from at (drop at line.now) }
{
    match digit_of(*line.get(at)?)? {
        0 => Some((0, at + 1)),
        digit => digits_from(line, at + 1, digit),
    }
}

// Behind a minus stands no zero, so that there is one zero.
#[tactic(auto, using(crate::proofs::NumberTurn::signed_at, crate::proofs::NumberTurn::signed_end), unfolding(crate::specs::Computed::Number::negated))]
fn signed_at(line: &[u8], at: usize) -> Option<Reading>
    ensures { result ≡ signed_from at (drop at line.now) }
{
    if *line.get(at)? != b'-' {
        let (size, end) = natural_at(line, at)?;
        return Some(Reading {
            number: i128::from(size),
            end,
        });
    }
    let (size, end) = natural_at(line, at + 1)?;
    if size == 0 {
        return None;
    }
    Some(Reading {
        number: -i128::from(size),
        end,
    })
}

// A number ends at the line's end or at a comma.
#[tactic(auto, unfolding(crate::specs::Computed::Number::is_end))]
fn is_end(line: &[u8], at: usize) -> bool
    ensures { result ≡ is_end line.now at }
{
    line.len() <= at || line[at] == b','
}

// The number that starts at a place of a line and ends at a comma or at the line's end. The library's `parse` would take a plus and leading zeros too, and would
// have to be told where the number ends.
pub fn number_at(line: &[u8], at: usize) -> Option<Reading>
    ensures { NumberContract line.now at result }
{
    signed_at(line, at).filter(|reading| is_end(line, reading.end))
}
