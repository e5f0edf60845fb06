// The clock over a whole plan, with the needs of each step looked at where it starts.
ghost use Rattle.std.specs.Prelude.{◌≡◌, not, [], ◌∷◌, ◌≤◌, ◌<◌};
ghost use Rattle.lists.specs.Lists.{any, Each};
ghost use Rattle.facts.specs.FactSet.{subset};
ghost use Rattle.job.specs.Refusal.{◌when◌, first};
ghost use Rattle.job.specs.declared.refusal.Refusal.TheVariants.{GoalMissing};
ghost use Rattle.timeline.specs.Timeline.{end};
ghost use Rattle.timeline.specs.Value.{steps_of};
ghost use Rattle.checker.specs.Watch.{lacks_at, Watches};

use crate::clock::Clock;
use job::refusal::Refusal;
use timeline::Plan;

// Whether a step that starts at the clock's minute lacks a needed fact.
fn lacks_need(plan: Plan, clock: Clock) -> bool
    requires { plan.length ≤ 32 }
    ensures { result ≡ any (lacks_at clock) (steps_of plan) }
{
    for step in &plan.steps[..plan.length] {
        if (step.start == clock.minute) & !facts::subset(step.action.needs, clock.facts) {
            return true;
        }
    }
    false
}

// Test 19, minute by minute: the needs of every step hold at its start. Where they do, the clock at the plan's end.
pub fn watch(plan: Plan, start: u64, last: u32) -> Result<Clock, Refusal>
    requires { (plan.length ≤ 32) × (last ≡ end (steps_of plan)) × Each (λ x. x.start < x.stop) (steps_of plan) }
    ensures { Watches start plan result }
{
    let mut clock = Clock::new(start);
    while clock.minute < last {
        if lacks_need(plan, clock) {
            return Err(Refusal::NeedMissing);
        }
        clock = clock.tick(plan);
    }
    Ok(clock)
}

// Test 20: the goal holds at the clock's minute.
pub fn goal(goal: u64, clock: Clock) -> Result<(), Refusal>
    ensures { result ≡ first (GoalMissing when not (subset goal clock.facts) ∷ []) }
{
    if !facts::subset(goal, clock.facts) {
        return Err(Refusal::GoalMissing);
    }
    Ok(())
}
