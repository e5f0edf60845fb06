// The steps in a plan's bytes.
ghost use Rattle.std.specs.Prelude.{◌≡◌, false, [], ◌∷◌, ◌/◌, ◌≤◌, ◌<◌, length};
ghost use Rattle.lists.specs.Lists.{any};
ghost use Rattle.job.specs.Job.{job_in, Fits};
ghost use Rattle.job.specs.Refusal.{◌when◌, first};
ghost use Rattle.job.specs.declared.refusal.Refusal.TheVariants.{PlanSize, UnknownAction};
ghost use Rattle.timeline.specs.Step.{step_of, steps_in};
ghost use Rattle.timeline.specs.Accepted.{unknown, wrong_size};
ghost use Rattle.timeline.specs.Value.{step_of_value, steps_of};

use encoding::read_number;
use job::Job;
use job::refusal::Refusal;
use timeline::{Plan, Step};

// Test 12: whole steps, and at most 32 of them.
pub fn size(bytes: &[u8]) -> Result<(), Refusal>
    ensures { result ≡ first (PlanSize when wrong_size bytes.now ∷ []) }
{
    if (bytes.len() % Plan::STEP != 0) | (Plan::BYTES < bytes.len()) {
        return Err(Refusal::PlanSize);
    }
    Ok(())
}

// Test 13: every action is one of the job's.
pub fn known_actions(job: Job, bytes: &[u8]) -> Result<(), Refusal>
    ensures { result ≡
        first (UnknownAction when any (unknown (job_in job)) (steps_in (job_in job) bytes.now) ∷ []) }
{
    let counts = job.counts;
    for i in 0..bytes.len() / Plan::STEP {
        if counts.actions <= usize::from(bytes[i * Plan::STEP]) {
            return Err(Refusal::UnknownAction);
        }
    }
    Ok(())
}

// One step: action `number` from minute `start` on.
pub fn step(job: Job, number: u8, start: u32) -> Step
    requires { Fits job.counts × (number < job.counts.actions) × (start < 65536) }
    ensures { step_of_value job.counts result ≡ step_of (job_in job) number start }
{
    let action = job.actions[usize::from(number)];
    Step {
        number,
        action,
        start,
        // A cast: the proof knows the range of the field, and not that of what `u32::from` gives of it.
        stop: start + action.duration as u32,
    }
}

// The plan in the bytes, whose size is right and whose actions are known.
pub fn plan(job: Job, bytes: &[u8]) -> Plan
    requires fits { Fits job.counts × (wrong_size bytes.now ≡ false) }
    requires bytes_value { any (unknown (job_in job)) (steps_in (job_in job) bytes.now) ≡ false }
    ensures { (result.length ≤ 32) × (result.counts ≡ job.counts)
        × (steps_of result ≡ steps_in (job_in job) bytes.now) }
{
    let unused = Step::unused();
    let mut steps = [unused; Plan::STEPS];
    let count = bytes.len() / Plan::STEP;
    for i in 0..count {
        let at = i * Plan::STEP;
        steps[i] = step(job, bytes[at], read_number(bytes, at + 1, 2) as u32);
    }
    let counts = job.counts;
    Plan {
        counts,
        length: count,
        steps,
    }
}
