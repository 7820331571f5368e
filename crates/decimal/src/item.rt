// The fields: which whole numbers they take, and the text of one.
ghost use Rattle.std.specs.Prelude.{◌≡◌, ℕ, ℤ, ◌+◌, ◌≤◌, List, Option};
ghost use Rattle.decimal.specs.Decimal.{decimal, whole_text};
ghost use Rattle.decimal.specs.Computed.Line.{word_of, action_of, limit_of};
ghost use Rattle.decimal.specs.Computed.Put.{HasRoom, Puts};

use crate::print::Text;
use itoa::{Buffer, Integer};

// A number of a field. No `Display` and no `TryFrom`: a `Formatter` does not say that 20 bytes are enough, and a field says which numbers it takes.
pub trait Item: Copy {
    // What a whole number is in the field, if anything.
    ghost field: { ℤ → Option Self };

    ghost shown: { Self → List ℕ };

    fn from_number(number: i128) -> Option<Self>
        ensures { result ≡ field number };

    // Puts the number's text, 20 bytes at most.
    fn put(self, text: &mut Text)
        requires { HasRoom text.old 20 }
        ensures puts { Puts text.old (shown self) text.new }
        ensures upper_bound { text.new.at ≤ text.old.at + 20 };
}

// Puts a number's text, as the library writes it.
#[inline]
fn put_number<I: Integer>(number: I, text: &mut Text)
    requires { HasRoom text.old I.MAX_STR_LEN }
    ensures puts { Puts text.old (I.text number) text.new }
    ensures upper_bound { text.new.at ≤ text.old.at + I.MAX_STR_LEN }
{
    text.put_text(Buffer::new().format(number).as_bytes());
}

// A word.
impl Item for i64 {
    ghost field = { word_of };

    ghost shown = { whole_text };

    fn from_number(number: i128) -> Option<i64> {
        i64::try_from(number).ok()
    }

    #[inline]
    #[tactic(auto, using(crate::proofs::PrintTurn::whole_same))]
    fn put(self, text: &mut Text) {
        put_number(self, text);
    }
}

// An action.
impl Item for u16 {
    ghost field = { action_of };

    ghost shown = { decimal };

    fn from_number(number: i128) -> Option<u16> {
        u16::try_from(number).ok()
    }

    fn put(self, text: &mut Text) {
        u64::from(self).put(text);
    }
}

// A limit, and any other number of 64 bits.
impl Item for u64 {
    ghost field = { limit_of };

    ghost shown = { decimal };

    fn from_number(number: i128) -> Option<u64> {
        u64::try_from(number).ok()
    }

    #[inline]
    #[tactic(auto, using(crate::proofs::PrintTurn::decimal_same))]
    fn put(self, text: &mut Text) {
        put_number(self, text);
    }
}
