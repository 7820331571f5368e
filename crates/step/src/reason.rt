// Why a configuration is stuck, rule by rule.
ghost use Rattle.std.specs.Prelude.{◌*◌, ◌≤◌, length, All};
ghost use Rattle.step.specs.Reasons.{Fresh, JudgeAllIs, IsSmall, PutAllIs};

use crate::Game;
use crate::rule::{Attempt, Obstacle};

// The earliest rule that applies, if any. In a list that has for each rule that its left's first node disagrees stand the obstacles of all rules before that, found
// as a step finds it: so a rule that is passed over by its left's root keeps what is there.
pub fn judge_all(game: Game, obstacles: &mut [Obstacle]) -> Option<usize>
    requires { Fresh obstacles.old }
    ensures { JudgeAllIs game.entry.table.words.now game.entry.configuration.words.now obstacles.new result }
{
    let root = table::key::root(game.configuration.words);
    let mut tried = game.table.first(root)?;
    // A loop: each candidate says which is the next. `std::iter::successors` gives the same candidates, but counts as an iterator with no end: to prove a `for` over it is
    // to prove `⊥`, which `loop-tried-init` asks.
    loop {
        let rule = tried.rule;
        let Err(obstacle) = crate::judge_alone(Attempt {
            rule,
            configuration: game.configuration,
        }) else {
            return Some(rule.number);
        };
        obstacles[rule.number] = obstacle;
        tried = tried.next()?;
    }
}

// Writes two words for each obstacle: 0 where the left disagrees and the place, 1 where a condition fails and its number.
pub fn put_all(obstacles: &[Obstacle], list: &mut [i64])
    requires small { All IsSmall obstacles.now }
    requires room { 2 * length obstacles.now ≤ length list.old }
    ensures { PutAllIs obstacles.now list.old list.new }
{
    // By places: a zip of `chunks_exact_mut` wants an invariant over both iterators, longer than the sum.
    for (rule, obstacle) in obstacles.iter().enumerate() {
        let (kind, number) = match *obstacle {
            Obstacle::Left(place) => (0, place),
            Obstacle::Condition(number) => (1, number),
        };
        list[2 * rule] = kind;
        list[2 * rule + 1] = number as i64;
    }
}
