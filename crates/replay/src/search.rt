// A depth-first search over frames in the work area: frame i holds the configuration after i actions of the log. The last depth needs no frame, since what
// stands there is the answer: each successor is made at the start of out, and copied into the next frame.
ghost use Rattle.std.specs.Prelude.{◌≡◌, false, ◌≤◌, ◌<◌, length, get_or, IfSome, IfNone};
ghost use Rattle.minuska.specs.Computed.Step.{order};
ghost use Rattle.memory.specs.Layout.{max_room, words_of};
ghost use Rattle.replay.specs.Reading.{table_of};

use memory::frame;
use minuska::{Refusal, Stepped};
use step::{Configuration, Game, Table};

// What one turn comes to.
#[derive(Clone, Copy)]
pub enum Turned {
    // On, at this depth.
    On(usize),
    // A successor above the limit was met; on, at the same depth.
    Beyond,
    // The log is done: the last configuration, so many words, stands at the start of out.
    Made(usize),
    // No rule is left at the initial configuration.
    Exhausted,
}

// What stays the same through a search. `out` and `work` are no fields: a rule reads a frame and writes out, and what is made is read in out and written to a frame.
#[derive(Clone, Copy)]
pub struct Search<'a> {
    pub table: Table<'a>,
    pub log: &'a [u16],
    // How many rules the table has.
    pub rules: usize,
    // The words for a configuration in a frame: twice the limit.
    pub room: usize,
    // Whether a configuration that was searched before is passed over. It changes no answer: without, each rule that applies is followed. So it is a field and no constant: the program has it true, and
    // the contract of the search, which does not name it, is proved for both.
    pub remember: bool,
    pub ghost rules_are: { rules ≡ length (order (table_of table.words.now)) },
    pub ghost few: { rules ≤ 256 },
    pub ghost narrow: { room ≤ max_room },
}

// Where a search stands: at a depth whose action the log has.
#[derive(Clone, Copy)]
struct Standing<'a> {
    search: &'a Search<'a>,
    depth: usize,
    ghost deep: { depth < length search.now.log.now },
}

impl<'a> Search<'a> {
    ghost use Rattle.replay.specs.Turns.{Framed, MemoryOf, Skipped, Sought, TryContract, SearchContract};
    ghost use Rattle.replay.specs.Standing.{Fits, Sound};

    // The first position from `from` on whose rule carries the action. A `for`: `find` over the range proves, but takes a jump more for each rule that it finds, 280 ns
    // a step for 269 (three counters, 30 actions).
    fn seek(&self, action: u16, from: usize) -> Option<usize>
        requires { from ≤ self.now.rules }
        ensures found { IfSome result (Sought (table_of self.now.table.words.now) self.now.rules action from) }
        ensures none { IfNone result (Skipped (table_of self.now.table.words.now) action from self.now.rules) }
    {
        for position in from..self.rules {
            if step::action(self.table, step::ordered(self.table, position)) == action {
                return Some(position);
            }
        }
        None
    }

    // The rule at a position, tried on a frame's configuration; its successor is made in the first `room` words of out.
    fn try_at(
        &self,
        position: usize,
        frame: &'a [i64],
        out: &mut [i64],
    ) -> Result<Option<Stepped>, Refusal>
        requires fits { (self.now.room ≤ length out.old) × (position < self.now.rules) }
        requires framed { Framed self.now.rules frame.now }
        ensures { TryContract self.now.table.words.now (words_of frame.now) (get_or (order (table_of self.now.table.words.now)) position 0) self.now.room out.old out.new result }
    {
        let rule = step::ordered(self.table, position);
        let configuration = Configuration {
            words: frame::configuration(frame),
        };
        Game {
            table: self.table,
            configuration,
        }
        .by_rule(rule, &mut out[..self.room])
    }

    // The search, from a configuration that is entered at depth 0: the words of the last configuration of a path, which stands at the start of out; refusal 6 where
    // there is none and a successor above the limit was met.
    pub fn find(&self, out: &mut [i64], work: &mut [i64]) -> Result<Option<usize>, Refusal>
        requires fits { Fits self.now out.old work.old × (0 < length self.now.log.now) }
        requires sound { Sound self.now work.old 0 }
        requires memory { MemoryOf (table_of self.now.table.words.now) self.now.room self.now.log.now work.old false 0 }
        ensures { SearchContract self.now.table.words.now self.now.rules self.now.room self.now.log.now out.old work.old out.new work.new result }
    {
        let mut depth = 0;
        let mut over = false;
        // A loop: no range has its turns, which go down and back up.
        loop {
            let here = Standing {
                search: &*self,
                depth,
            };
            match here.turn(out, work) {
                Turned::On(next) => depth = next,
                Turned::Beyond => over = true,
                Turned::Made(words) => return Ok(Some(words)),
                Turned::Exhausted if over => return Err(Refusal::OverLimit),
                Turned::Exhausted => return Ok(None),
            }
        }
    }
}

impl Standing<'_> {
    ghost use Rattle.replay.specs.Turns.{MadeWithin};
    ghost use Rattle.replay.specs.Standing.{Fits, Spare, Sound, DescendsFrom, SettlesAt, SoughtAt, Turns};

    // A successor, the first `words` words of out: it is entered, unless it is the last, or is known and the search remembers.
    fn descend(self, words: usize, out: &[i64], work: &mut [i64]) -> Turned
        requires fits { Fits self.search.now out.now work.old }
        requires some { (0 < words) × (words ≤ self.search.now.room) }
        requires spare { Spare self.search.now work.old }
        ensures { DescendsFrom self.entry words out.now work.old work.new result }
    {
        let search = self.search;
        let next = self.depth + 1;
        if next == search.log.len() {
            return Turned::Made(words);
        }
        let successor = &out[..words];
        let tabled = memory::pays(search.remember, search.log.len() - next);
        let frame = &mut work[frame::place(search.room, next)];
        if memory::known(frame, search.remember, tabled, successor) {
            return Turned::On(self.depth);
        }
        memory::enter(frame, tabled, successor);
        Turned::On(next)
    }

    // What a rule's answer comes to.
    fn settle(
        self,
        answer: Result<Option<Stepped>, Refusal>,
        out: &[i64],
        work: &mut [i64],
    ) -> Turned
        requires fits { Fits self.search.now out.now work.old }
        requires made { MadeWithin answer self.search.now.room (length out.now) }
        requires spare { Spare self.search.now work.old }
        ensures { SettlesAt self.entry answer out.now work.old work.new result }
    {
        match answer {
            Ok(Some(stepped)) => self.descend(2 * stepped.nodes, out, work),
            Ok(None) => Turned::On(self.depth),
            Err(_) => Turned::Beyond,
        }
    }

    // The rule at a position, which `seek` has found, is tried at a depth.
    fn go_on(self, position: usize, out: &mut [i64], work: &mut [i64]) -> Turned
        requires fits { Fits self.search.now out.old work.old }
        requires sought { SoughtAt self work.old position }
        requires sound { Sound self.search.now work.old self.depth }
        ensures { Turns self.entry out.old work.old out.new work.new result }
    {
        let frame = &mut work[frame::place(self.search.room, self.depth)];
        let answer = self.search.try_at(position, frame, out);
        frame::set_position(frame, position + 1);
        self.settle(answer, out, work)
    }

    // One turn at a depth: the next rule there that carries the action, or back by one.
    fn turn(self, out: &mut [i64], work: &mut [i64]) -> Turned
        requires fits { Fits self.search.now out.old work.old }
        requires sound { Sound self.search.now work.old self.depth }
        ensures { Turns self.entry out.old work.old out.new work.new result }
    {
        let from = frame::position(&work[frame::place(self.search.room, self.depth)]);
        match self.search.seek(self.search.log[self.depth], from) {
            Some(position) => self.go_on(position, out, work),
            None if self.depth == 0 => Turned::Exhausted,
            None => Turned::On(self.depth - 1),
        }
    }
}
