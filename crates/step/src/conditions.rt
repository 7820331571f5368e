// A rule's conditions, one after the other.
ghost use Rattle.step.specs.Conditions.{ConditionsHere, HoldAllIsHere};

use term::Span;
use value::Scope;

// Whether all conditions that stand in a part of the table hold, or the number, from 0, of the first that fails.
pub fn hold_all(scope: &Scope, conditions: Span) -> Result<(), usize>
    requires { ConditionsHere scope.now conditions.from conditions.to }
    ensures { HoldAllIsHere scope.now conditions.from conditions.to result }
{
    let mut i = conditions.from;
    let mut held = 0;
    // A while loop: each condition says where the next begins. An iterator of our own would hold the same place, and its law say what this loop's invariant says.
    while i < conditions.to {
        let condition = scope.condition(i);
        if !condition.holds {
            return Err(held);
        }
        i = condition.next;
        held += 1;
    }
    Ok(())
}
