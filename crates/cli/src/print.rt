// The answer's text put into the output. Each routine is lent room enough.
ghost use Rattle.std.specs.Prelude.{◌+◌, ◌*◌, length};
ghost use Rattle.decimal.specs.Computed.Put.{HasRoom, Puts};
ghost use Rattle.cli.specs.Output.{reproduced_text, refused_text, not_reproduced_text};

use decimal::{Item, Text};
use minuska::Refusal;

// `refused,` and the number.
pub fn put_refusal(text: &mut Text, refusal: Refusal)
    requires { HasRoom text.old 64 }
    ensures { Puts text.old (refused_text refusal) text.new }
{
    text.put_text(b"refused,");
    u64::from(refusal).put(text);
    text.put_text(b"\n");
}

pub fn put_not_reproduced(text: &mut Text)
    requires { HasRoom text.old 64 }
    ensures { Puts text.old not_reproduced_text text.new }
{
    text.put_text(b"not reproduced\n");
}

// `reproduced,` the step count and the choices; then the words of a configuration.
pub fn put_reproduced(text: &mut Text, choices: &[u16], words: &[i64])
    requires { HasRoom text.old (64 + 21 * length choices.now + 21 * length words.now) }
    ensures { Puts text.old (reproduced_text choices.now words.now) text.new }
{
    text.put_text(b"reproduced,");
    (choices.len() as u64).put(text);
    text.put_more(choices);
    text.put_text(b"\n");
    text.put_all(words);
    text.put_text(b"\n");
}
