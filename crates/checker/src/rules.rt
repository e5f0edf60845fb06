// One check for each rule of the timeline, over the steps of a plan.
ghost use Rattle.std.specs.Prelude.{◌≡◌, not, [], ◌∷◌, ◌≤◌, ◌<◌, length};
ghost use Rattle.lists.specs.Lists.{any, tabulate, any_below};
ghost use Rattle.job.specs.Job.{job_in, Fits};
ghost use Rattle.job.specs.declared.Counts.{Counts};
ghost use Rattle.job.specs.Refusal.{◌when◌, first};
ghost use Rattle.job.specs.Valid.{over};
ghost use Rattle.job.specs.declared.refusal.Refusal.TheVariants.{StepOrder, AfterDeadline, Clash};
ghost use Rattle.job.specs.declared.refusal.Refusal.TheVariants.{StoreExceeded};
ghost use Rattle.timeline.specs.Step.{before, strictly_rising, any_pair};
ghost use Rattle.timeline.specs.Timeline.{end, used_up};
ghost use Rattle.timeline.specs.Accepted.{clashing, exceeds_store};
ghost use Rattle.timeline.specs.Value.{step_of_value, step_at, steps_of};

use job::refusal::Refusal;
use job::{Counts, Job};
use timeline::{Plan, Step};

// Whether x stands before y: by start, then by action.
fn precedes(x: Step, y: Step) -> bool
    ensures { (n : Counts) → result ≡ before (step_of_value n x) (step_of_value n y) }
{
    (x.start < y.start) | ((x.start == y.start) & (x.number < y.number))
}

// Test 14: the steps stand in strictly rising order.
pub fn order(plan: Plan) -> Result<(), Refusal>
    requires { plan.length ≤ 32 }
    ensures { result ≡ first (StepOrder when not (strictly_rising (steps_of plan)) ∷ []) }
{
    for i in 1..plan.length {
        let last = plan.steps[i - 1];
        let step = plan.steps[i];
        if !precedes(last, step) {
            return Err(Refusal::StepOrder);
        }
    }
    Ok(())
}

// Test 15: every step stops by the deadline.
pub fn deadline(plan: Plan, limit: u16) -> Result<(), Refusal>
    requires { plan.length ≤ 32 }
    ensures { result ≡ first (AfterDeadline when any (λ x. over limit x.stop) (steps_of plan) ∷ []) }
{
    for step in &plan.steps[..plan.length] {
        if u32::from(limit) < step.stop {
            return Err(Refusal::AfterDeadline);
        }
    }
    Ok(())
}

// Whether two steps share a minute and clash.
fn clashing(x: Step, y: Step) -> bool
    ensures { (n : Counts) → result ≡ clashing (step_of_value n x) (step_of_value n y) }
{
    let a = x.action;
    let b = y.action;
    ((x.start < y.stop) & (y.start < x.stop))
        & ((x.number == y.number) | (timeline::hinders(a, b) | timeline::hinders(b, a)))
}

// Whether a step before place i clashes with the step there.
fn clashes_earlier(plan: Plan, i: usize) -> bool
    requires { (plan.length ≤ 32) × (i < plan.length) }
    ensures { result ≡ any (λ x. clashing x (step_at plan i)) (tabulate i (step_at plan)) }
{
    let step = plan.steps[i];
    for other in &plan.steps[..i] {
        if clashing(*other, step) {
            return true;
        }
    }
    false
}

// Test 16: steps that share a minute don't clash.
pub fn clashes(plan: Plan) -> Result<(), Refusal>
    requires { plan.length ≤ 32 }
    ensures { result ≡ first (Clash when any_pair clashing (steps_of plan) ∷ []) }
{
    for i in 0..plan.length {
        if clashes_earlier(plan, i) {
            return Err(Refusal::Clash);
        }
    }
    Ok(())
}

// How much of the store all steps use up.
pub fn used_up(plan: Plan, job: Job, store: usize) -> u64
    requires { (plan.length ≤ 32) × (plan.counts ≡ job.counts)
        × (job.counts.stores ≤ 4) × (store < job.counts.stores) }
    ensures { result ≡ used_up (job_in job) store (steps_of plan) }
{
    let mut sum: u64 = 0;
    for step in &plan.steps[..plan.length] {
        let amounts = job::resources::charged(job, step.action);
        sum += amounts[store];
    }
    sum
}

// Test 18: over the plan the steps use up no more of each store than is allowed.
pub fn stores(plan: Plan, job: Job) -> Result<(), Refusal>
    requires { (plan.length ≤ 32) × (plan.counts ≡ job.counts) × Fits job.counts }
    ensures { result ≡ first
        (StoreExceeded when any_below (length (job_in job).stores) (exceeds_store (job_in job) (steps_of plan)) ∷ []) }
{
    let limits = job::resources::allowed(job);
    for k in 0..job.counts.stores {
        if u64::from(limits[k]) < used_up(plan, job, k) {
            return Err(Refusal::StoreExceeded);
        }
    }
    Ok(())
}

// The plan's end: the latest stop, 0 for no steps.
pub fn end(plan: Plan) -> u32
    requires { plan.length ≤ 32 }
    ensures { result ≡ end (steps_of plan) }
{
    let mut latest: u32 = 0;
    for step in &plan.steps[..plan.length] {
        latest = latest.max(step.stop);
    }
    latest
}
