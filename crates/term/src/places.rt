// Where the terms of a match's variables stand in the configuration.
ghost use Rattle.std.specs.Prelude.{◌≡◌, ◌^◌, ◌<◌, ◌↔◌, get_or, set, replicate, length, IsNone, IfSome};
ghost use Rattle.minuska.specs.Word.{variables};

use crate::{Span, VARIABLES};

// A part of the configuration for each variable that has one; the end of any other is 0. Two arrays, and not one of `Option<Span>`: a place of a configuration has 17 bits, and a match
// begins anew by clearing 64 bytes.
#[derive(Clone, Copy)]
pub struct Places {
    pub starts: [u32; VARIABLES],
    pub ends: [u32; VARIABLES],
    pub ghost starts_long: { length starts ≡ variables },
    pub ghost ends_long: { length ends ≡ variables },
}

impl Places {
    // No variable has a part.
    pub fn new() -> Self
        ensures { result.ends ≡ replicate variables 0 }
    {
        Places {
            starts: [0; VARIABLES],
            ends: [0; VARIABLES],
        }
    }

    // The same of places that were used before.
    pub fn clear(&mut self)
        ensures ends { self.new.ends ≡ replicate variables 0 }
        ensures starts { self.new.starts ≡ self.old.starts }
    {
        self.ends = [0; VARIABLES];
    }

    // A variable's part, if it has one.
    pub fn get(&self, v: usize) -> Option<Span>
        requires { v < variables }
        ensures unbound { IsNone result ↔ (get_or self.now.ends v 0 ≡ 0) }
        ensures bound { IfSome result (λ part. part ≡ record { from = get_or self.now.starts v 0; to = get_or self.now.ends v 0 }) }
    {
        let part = self.part(v);
        (part.to != 0).then_some(part)
    }

    // The part of a variable that has one.
    pub fn part(&self, v: usize) -> Span
        requires { v < variables }
        ensures { result ≡ record { from = get_or self.now.starts v 0; to = get_or self.now.ends v 0 } }
    {
        Span {
            from: self.starts[v] as usize,
            to: self.ends[v] as usize,
        }
    }

    // Gives a variable a part.
    pub fn set(&mut self, v: usize, part: Span)
        requires { (v < variables) × (part.from < 2 ^ 32) × (part.to < 2 ^ 32) }
        ensures starts { self.new.starts ≡ set self.old.starts v part.from }
        ensures ends { self.new.ends ≡ set self.old.ends v part.to }
    {
        self.starts[v] = part.from as u32;
        self.ends[v] = part.to as u32;
    }
}
