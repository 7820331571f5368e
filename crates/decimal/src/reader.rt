// The number reader: a line and how far it has come, thin over `number_at`.
ghost use Rattle.std.specs.Prelude.{◌≡◌, suc, ◌-◌, length};
ghost use Rattle.std.specs.Iterator.{at_most};
ghost use Rattle.decimal.specs.Number.{NextContract};

use crate::number::number_at;

// The line that was lent, and how far the reader has come.
#[derive(Drop)]
pub struct NumberReader<'a> {
    pub line: &'a [u8],
    pub at: usize,
}

impl<'a> NumberReader<'a> {
    pub fn new(line: &'a [u8], at: usize) -> NumberReader<'a>
        ensures { (result.line ≡ line.entry) × (result.at ≡ at) }
    {
        NumberReader { line, at }
    }
}

impl<'a> Iterator for NumberReader<'a> {
    type Item = i128;

    ghost next_gives = { NextContract };

    ghost remaining = { λ reader. at_most (suc (length reader.line.now) - reader.at) };

    // The number that the reader has come to. With it the reader comes to the place behind; without one it stays.
    #[tactic(auto, using(crate::proofs::SoundLaw::reading_inside))]
    fn next(&mut self) -> Option<i128> {
        let reading = number_at(self.line, self.at)?;
        self.at = reading.end + 1;
        Some(reading.number)
    }
}
