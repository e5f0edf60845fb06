// The checker: a job and a plan's bytes in; the plan's end, number of steps and peaks, or the first refusal of the
// job and of 12 to 20, out.
#![tactic(auto)]

pub mod decode; // the steps in a plan's bytes
pub mod rules; // one check for each rule
pub mod pools; // how much of each pool is in use
pub mod clock; // the facts that hold, minute by minute
mod watch; // the clock over a whole plan

ghost use Rattle.std.specs.Prelude.{◌≡◌, false, ℕ, ◌≤◌, ◌<◌};
ghost use Rattle.lists.specs.Lists.{any, Each};
ghost use Rattle.job.specs.Job.{job_in, Fits};
ghost use Rattle.job.specs.Refusal.{first, answer_by};
ghost use Rattle.timeline.specs.Accepted.{unknown, order_rows, rule_rows, step_rows};
ghost use Rattle.timeline.specs.Timeline.{end, held};
ghost use Rattle.timeline.specs.Day.{told_of};
ghost use Rattle.timeline.specs.Value.{steps_of};
ghost use Rattle.checker.specs.Check.{Checks, check_for, check_within, shape_day, Valid, Limited};
ghost use Rattle.checker.specs.Check.{SmallPeaks, ChecksPlan};
ghost use Rattle.checker.specs.Watch.{clock_at_end};

use clock::Clock;
use job::Job;
use job::refusal::Refusal;
use job::validate::{validate, validate_limits};
use timeline::{Day, Plan};

// What is told of a plan's bytes, and the plan by value for a call that goes on with it.
#[derive(Clone, Copy)]
pub struct CheckedPlan {
    pub day: Day,
    pub plan: Plan,
}

// Tests 14 and 15, of the steps of a plan whose actions are known: its end.
fn check_order(plan: Plan, job: Job) -> Result<u32, Refusal>
    requires { (plan.length ≤ 32) × (any (unknown (job_in job)) (steps_of plan) ≡ false) }
    ensures { result ≡ answer_by (first (order_rows (job_in job) (steps_of plan))) (end (steps_of plan)) }
{
    rules::order(plan)?;
    rules::deadline(plan, job.deadline)?;
    Ok(rules::end(plan))
}

// Tests 16 to 19, of a plan that ends at the minute: the clock then.
fn check_rules(plan: Plan, job: Job, last: u32) -> Result<Clock, Refusal>
    requires length_bound { (plan.length ≤ 32) × (plan.counts ≡ job.counts) × Fits job.counts }
    requires plan_value { (last ≡ end (steps_of plan)) × Each (λ x. x.start < x.stop) (steps_of plan) }
    ensures { result ≡ answer_by (first (rule_rows (job_in job) (steps_of plan))) (clock_at_end job.start plan) }
{
    rules::clashes(plan)?;
    pools::within(plan, job)?;
    rules::stores(plan, job)?;
    watch::watch(plan, job.start, last)
}

// Tests 14 to 20, of the steps of a plan whose actions are known: its end.
fn check_steps(plan: Plan, job: Job, goal: u64) -> Result<u32, Refusal>
    requires length_bound { (plan.length ≤ 32) × (plan.counts ≡ job.counts) × Fits job.counts }
    requires plan_value { (any (unknown (job_in job)) (steps_of plan) ≡ false) × Each (λ x. x.start < x.stop) (steps_of plan) }
    ensures { result ≡ answer_by (first (step_rows (job_in job) goal (steps_of plan))) (end (steps_of plan)) }
{
    let last = check_order(plan, job)?;
    let clock = check_rules(plan, job, last)?;
    watch::goal(goal, clock)?;
    Ok(last)
}

// What is told of a plan that ends at the minute.
fn told(plan: Plan, job: Job, last: u32) -> Day
    requires { (plan.length ≤ 32) × (plan.counts ≡ job.counts) × Fits job.counts × SmallPeaks job plan
        × (last ≡ end (steps_of plan)) }
    ensures { result ≡ told_of (job_in job) (steps_of plan) }
{
    Day {
        end: last,
        steps: plan.length,
        peaks: pools::peaks(plan, job),
    }
}

// Tests 12 to 15, of a job that passes its own tests: what is told of a plan that may break 16 to 20.
pub fn check_shape(job: Job, bytes: &[u8]) -> Result<Day, Refusal>
    requires { Valid job }
    ensures { result ≡ shape_day (job_in job) bytes.now }
{
    decode::size(bytes)?;
    decode::known_actions(job, bytes)?;
    let plan = decode::plan(job, bytes);
    let last = check_order(plan, job)?;
    Ok(told(plan, job, last))
}

// Tests 12 to 20 with a goal, of a job within its limits.
pub fn checked_plan(job: Job, goal: u64, bytes: &[u8]) -> Result<CheckedPlan, Refusal>
    requires { Limited job }
    ensures { ChecksPlan job goal bytes.now result }
{
    decode::size(bytes)?;
    decode::known_actions(job, bytes)?;
    let plan = decode::plan(job, bytes);
    let last = check_steps(plan, job, goal)?;
    let day = told(plan, job, last);
    Ok(CheckedPlan { day, plan })
}

// Whether the plan is accepted for the job's goal: its end, number of steps and peaks, or the first refusal of the
// job and of 12 to 20.
pub fn check(job: Job, plan: &[u8]) -> Result<Day, Refusal>
    ensures { Checks (job_in job) plan.now result }
{
    validate(job)?;
    let checked = checked_plan(job, job.goal, plan)?;
    Ok(checked.day)
}

// Whether the plan is accepted for another goal by what may be left of a day: the job's limits, 24 for a foreign fact,
// then 12 to 20. Test 26 looks only at a job as it is handed in.
pub fn check_within(job: Job, goal: u64, plan: &[u8]) -> Result<Day, Refusal>
    ensures { result ≡ check_within (job_in job) goal plan.now }
{
    validate_limits(job)?;
    if facts::foreign(job.facts, goal) {
        return Err(Refusal::ForeignAskedFact);
    }
    let checked = checked_plan(job, goal, plan)?;
    Ok(checked.day)
}

// Whether the plan is accepted for another goal: all tests of the job, then as above.
pub fn check_for(job: Job, goal: u64, plan: &[u8]) -> Result<Day, Refusal>
    ensures { result ≡ check_for (job_in job) goal plan.now }
{
    validate(job)?;
    check_within(job, goal, plan)
}
