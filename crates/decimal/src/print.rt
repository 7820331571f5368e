// A text put into an output that was lent. Each routine is lent room enough; how much is asked of each, since each puts another length, so that no type holds it.
ghost use Rattle.std.specs.Prelude.{◌≡◌, map, ◌+◌, ◌*◌, ◌≤◌, length};
ghost use Rattle.decimal.specs.Line.{continued, parted};
ghost use Rattle.decimal.specs.Computed.Put.{HasRoom, Puts};

use crate::item::Item;

// The output, and how many bytes of text stand at its start.
#[derive(Drop)]
pub struct Text<'a> {
    pub output: &'a mut [u8],
    pub at: usize,
}

impl<'a> Text<'a> {
    pub fn new(output: &'a mut [u8]) -> Text<'a>
        ensures same_output { result.output.ghost_name ≡ output.entry.ghost_name }
        ensures bytes { result.output.now ≡ output.old }
        ensures empty { result.at ≡ 0 }
    {
        Text { output, at: 0 }
    }

    // The room is known: the library's `Write` of a slice would answer a `Result`, and leave only the part of the slice behind the text.
    #[inline]
    #[tactic(auto, using(crate::proofs::PrintTurn::wrote_part))]
    pub fn put_text(&mut self, bytes: &[u8])
        requires { HasRoom self.old (length bytes.now) }
        ensures { Puts self.old bytes.now self.new }
    {
        let start = self.at;
        let end = start + bytes.len();
        self.output[start..end].copy_from_slice(bytes);
        self.at = end;
    }

    // Each number behind a comma.
    #[tactic(auto, using(crate::proofs::PrintTurn::puts_none))]
    pub fn put_more<T: Item>(&mut self, numbers: &[T])
        requires { HasRoom self.old (21 * length numbers.now) }
        ensures puts { Puts self.old (continued (map T.shown numbers.now)) self.new }
        ensures upper_bound { self.new.at ≤ self.old.at + 21 * length numbers.now }
    {
        for number in numbers {
            self.put_text(b",");
            number.put(self);
        }
    }

    // The numbers, parted by commas.
    pub fn put_all<T: Item>(&mut self, numbers: &[T])
        requires { HasRoom self.old (21 * length numbers.now) }
        ensures puts { Puts self.old (parted (map T.shown numbers.now)) self.new }
        ensures upper_bound { self.new.at ≤ self.old.at + 21 * length numbers.now }
    {
        if let Some((first, rest)) = numbers.split_first() {
            first.put(self);
            self.put_more(rest);
        }
    }
}
