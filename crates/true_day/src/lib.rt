// The true day: a job, a plan's bytes and the true length of each step in; the true end, number of steps and peaks, or
// the first refusal of the job, of 12 to 20 and of 30, out.
#![tactic(auto)]

ghost use Rattle.std.specs.Prelude.{◌≡◌, ◌≤◌, ◌<◌, ◌+◌, ◌^◌, length};
ghost use Rattle.job.specs.Job.{job_in, Fits};
ghost use Rattle.job.specs.Lengths.{longest_of};
ghost use Rattle.job.specs.declared.Counts.{Counts};
ghost use Rattle.timeline.specs.Value.{step_of_value, steps_of};
ghost use Rattle.timeline.specs.TrueLengths.{with_length, with_lengths, outside_range, wrong_lengths};
ghost use Rattle.true_day.specs.TrueDay.{TellsTrueDay};
ghost use Rattle.true_day.specs.Inner.{Own, Ends};

use checker::checked_plan;
use checker::pools::peaks;
use checker::rules::end;
use job::Job;
use job::lengths::shortest;
use job::refusal::Refusal;
use job::validate::validate;
use timeline::{Day, Plan, Step};

// Whether a length is outside the range of the step's action.
fn outside_range(job: Job, step: Step, length: u8) -> bool
    requires { Fits job.counts × (step.number < job.counts.actions)
        × (step.action.duration ≡ longest_of (job_in job) step.number) }
    ensures { result ≡ outside_range (job_in job) (step_of_value job.counts step) length }
{
    let action = step.action;
    let number = usize::from(step.number);
    let least = shortest(job.form, job.shortest[number], action.duration);
    (length < least) | (action.duration < length)
}

// Test 30: whether there is not one length for each step, or one is outside its range.
fn wrong_lengths(job: Job, plan: Plan, lengths: &[u8]) -> bool
    requires { Own job plan }
    ensures { result ≡ wrong_lengths (job_in job) (steps_of plan) lengths.now }
{
    if lengths.len() != plan.length {
        return true;
    }
    for i in 0..plan.length {
        if outside_range(job, plan.steps[i], lengths[i]) {
            return true;
        }
    }
    false
}

// The step with another length.
fn with_length(step: Step, length: u8) -> Step
    requires { step.start + length < 2 ^ 32 }
    ensures { (n : Counts) → step_of_value n result ≡ with_length (step_of_value n step) length }
{
    Step {
        stop: step.start + u32::from(length),
        ..step
    }
}

// The plan with another length for each step.
fn with_lengths(plan: Plan, lengths: &[u8]) -> Plan
    requires { (plan.length ≤ 32) × (plan.length ≡ length lengths.now) × Ends plan lengths.now }
    ensures { (result.length ≡ plan.length) × (result.counts ≡ plan.counts)
        × (steps_of result ≡ with_lengths (steps_of plan) lengths.now) }
{
    let mut steps = plan.steps;
    for i in 0..plan.length {
        steps[i] = with_length(plan.steps[i], lengths[i]);
    }
    Plan { steps, ..plan }
}

// What the day of an accepted plan was: its true end, its number of steps and its true peaks, or the first refusal of
// the job, of 12 to 20 and of 30.
pub fn true_day(job: Job, plan: &[u8], lengths: &[u8]) -> Result<Day, Refusal>
    ensures { TellsTrueDay (job_in job) plan.now lengths.now result }
{
    validate(job)?;
    let checked = checked_plan(job, job.goal, plan)?;
    let planned = checked.plan;
    if wrong_lengths(job, planned, lengths) {
        return Err(Refusal::TrueLengths);
    }
    let run = with_lengths(planned, lengths);
    Ok(Day {
        end: end(run),
        steps: run.length,
        peaks: peaks(run, job),
    })
}
