// The rest of a begun day as a day of its own: which facts hold when it begins, and what is left of the steps that run
// then.
#![tactic(auto)]

ghost use Rattle.std.specs.Prelude.{◌≡◌, ◌≤◌, ◌<◌, map, length};
ghost use Rattle.job.specs.Job.{job_in, action_in, Fits};
ghost use Rattle.job.specs.declared.Counts.{Counts};
ghost use Rattle.facts.specs.FactSet.{union};
ghost use Rattle.timeline.specs.Step.{union_of};
ghost use Rattle.timeline.specs.Timeline.{held};
ghost use Rattle.timeline.specs.Value.{step_of_value, steps_of};
ghost use Rattle.tables.specs.Tables.{Known, chosen};
ghost use Rattle.earliest.specs.Extra.{extra_actions};
ghost use Rattle.begun.specs.RestOfDay.{running, rest_action};
ghost use Rattle.begun.specs.Kept.{HasBegun, Begun, WithRest};

use checker::clock::Clock;
use checker::decode;
use earliest::extra::Extra;
use job::{Action, Job};
use tables::Steps;
use timeline::{Plan, Step};

// The kept steps as a plan by value, the last first.
pub fn kept_plan(job: Job, kept: Steps) -> Plan
    requires { Fits job.counts × Known job.counts.actions kept }
    ensures { (result.length ≤ 32) × (result.counts ≡ job.counts) × (steps_of result ≡ chosen (job_in job) kept) }
{
    let unused = Step::unused();
    let mut steps = [unused; Plan::STEPS];
    for i in 0..kept.count {
        let k = kept.count - 1 - i;
        steps[i] = decode::step(job, kept.numbers[k], u32::from(kept.starts[k]));
    }
    let counts = job.counts;
    Plan {
        counts,
        length: kept.count,
        steps,
    }
}

// The facts that hold at a minute, where the plan's day starts with these.
pub fn held_at(plan: Plan, start: u64, minute: u16) -> u64
    requires { plan.length ≤ 32 }
    ensures { result ≡ held start (steps_of plan) minute }
{
    let mut clock = Clock::new(start);
    for _ in 0..minute {
        clock = clock.tick(plan);
    }
    clock.facts
}

// What is at hand from the minute on: what holds then, and all that the plan's steps add that still run.
pub fn at_hand(plan: Plan, held: u64, minute: u16) -> u64
    requires { plan.length ≤ 32 }
    ensures { result ≡ union held (union_of (λ x. x.action.adds) (running minute (steps_of plan))) }
{
    let now = u32::from(minute);
    let mut added = 0;
    for step in &plan.steps[..plan.length] {
        added = facts::union(added, facts::when(now < step.stop, step.action.adds));
    }
    facts::union(held, added)
}

// What is left of a step that runs in the minute, as an action.
fn rest_action(step: Step, minute: u32) -> Action
    requires { HasBegun minute step.start step.action.duration step.stop × (minute < step.stop) }
    ensures { (n : Counts) → action_in n result ≡ rest_action minute (step_of_value n step) }
{
    let mut rest = step.action;
    rest.duration = (step.stop - minute) as u8;
    rest
}

// The actions with what is left of the step, where it still runs in the minute.
fn with_rest(extra: Extra, step: Step, minute: u32) -> Extra
    requires { (extra.count < 32) × (length extra.actions ≡ 32)
        × HasBegun minute step.start step.action.duration step.stop }
    ensures { WithRest extra step minute result }
{
    if step.stop <= minute {
        return extra;
    }
    let mut more = extra;
    let at = extra.count;
    more.actions[at] = rest_action(step, minute);
    more.count = at + 1;
    more
}

// What is left of the plan's steps that run in the minute.
pub fn rest_actions(plan: Plan, minute: u16) -> Extra
    requires { (plan.length ≤ 32) × Begun minute (steps_of plan) }
    ensures { (result.count ≤ 32) × (length result.actions ≡ 32)
        × (extra_actions plan.counts result ≡ map (rest_action minute) (running minute (steps_of plan))) }
{
    let now = u32::from(minute);
    let mut extra = Extra::none();
    for step in &plan.steps[..plan.length] {
        extra = with_rest(extra, *step, now);
    }
    extra
}
