// Words as numbers.
ghost use Rattle.std.specs.Prelude.{◌≡◌};
ghost use Rattle.minuska.specs.Computed.Read.{number_below};
ghost use Rattle.table.specs.Number.{answered};

// A word as a number below a bound.
pub fn number_below(bound: usize, word: i64) -> Option<usize>
    ensures { result ≡ answered (number_below bound word) }
{
    // Not `usize::try_from`, by which a check of a table takes 3 % more instructions.
    if word < 0 || bound <= word as usize {
        return None;
    }
    Some(word as usize)
}
