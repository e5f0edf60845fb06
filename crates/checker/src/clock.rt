// The facts that hold, minute by minute.
ghost use Rattle.std.specs.Prelude.{◌≡◌, ◌+◌, ◌≤◌, ◌<◌};
ghost use Rattle.job.specs.declared.Counts.{Counts};
ghost use Rattle.timeline.specs.Timeline.{if_stops, deleted_at, added_at, next};
ghost use Rattle.timeline.specs.Value.{step_of_value, steps_of};

use timeline::{Plan, Step};

// What the steps that stop at one minute delete and add.
#[derive(Clone, Copy)]
pub struct Effects {
    pub deletes: u64,
    pub adds: u64,
}

// A minute, and the facts that hold then.
#[derive(Clone, Copy)]
pub struct Clock {
    pub minute: u32,
    pub facts: u64,
}

// The set, where the step stops at the minute; nothing otherwise.
fn if_stops(step: Step, minute: u32, set: u64) -> u64
    ensures { (n : Counts) → result ≡ if_stops minute set (step_of_value n step) }
{
    if step.stop == minute {
        return set;
    }
    0
}

// The effects at a minute.
fn effects_at(plan: Plan, minute: u32) -> Effects
    requires { plan.length ≤ 32 }
    ensures { result ≡ record { deletes = deleted_at minute (steps_of plan); adds = added_at minute (steps_of plan) } }
{
    let mut deletes: u64 = 0;
    let mut adds: u64 = 0;
    for step in &plan.steps[..plan.length] {
        deletes = facts::union(deletes, if_stops(*step, minute, step.action.deletes));
        adds = facts::union(adds, if_stops(*step, minute, step.action.adds));
    }
    Effects { deletes, adds }
}

impl Clock {
    // At minute 0 the start set holds.
    pub fn new(start: u64) -> Clock
        ensures { result ≡ record { minute = 0; facts = start } }
    {
        Clock {
            minute: 0,
            facts: start,
        }
    }

    // One minute forward: what the steps ending then delete goes, and what they add comes.
    pub fn tick(mut self, plan: Plan) -> Clock
        requires { (plan.length ≤ 32) × (self.minute < 4294967295) }
        ensures { result ≡
            record { minute = self.minute + 1; facts = next (steps_of plan) (self.minute + 1) self.facts } }
    {
        self.minute += 1;
        let now = effects_at(plan, self.minute);
        self.facts = facts::union(facts::difference(self.facts, now.deletes), now.adds);
        self
    }
}
