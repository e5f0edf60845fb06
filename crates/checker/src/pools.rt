// How much of each pool is in use: test 17, and the peaks.
ghost use Rattle.std.specs.Prelude.{◌≡◌, [], ◌∷◌, ◌+◌, ◌≤◌, ◌<◌, leb, length};
ghost use Rattle.lists.specs.Lists.{any_below};
ghost use Rattle.job.specs.Job.{job_in, Fits};
ghost use Rattle.job.specs.Refusal.{◌when◌, first};
ghost use Rattle.job.specs.declared.refusal.Refusal.TheVariants.{PoolExceeded};
ghost use Rattle.timeline.specs.Timeline.{peaks};
ghost use Rattle.timeline.specs.Accepted.{exceeds_pool};
ghost use Rattle.timeline.specs.Value.{steps_of};
ghost use Rattle.checker.specs.Check.{SmallPeaks};
ghost use Rattle.checker.specs.Leaf.{Share, InUse, PeakOf};

use job::Job;
use job::refusal::Refusal;
use timeline::{Plan, Step};

// Whether a share is free again in the minute: the handover long after its step.
fn freed(stop: u32, handover: u8, minute: u32) -> bool
    ensures { result ≡ leb (stop + handover) minute }
{
    u64::from(stop) + u64::from(handover) <= u64::from(minute)
}

// What the step has of the pool in the minute.
fn share(step: Step, pool: usize, handover: u8, minute: u32) -> u64
    requires { pool < 4 }
    ensures { Share step pool handover minute result }
{
    let action = step.action;
    if minute < step.start {
        return 0;
    }
    if freed(step.stop, handover, minute) {
        return 0;
    }
    u64::from(action.pools[pool])
}

// How much of the pool is in use in the minute.
fn in_use(plan: Plan, pool: usize, handover: u8, minute: u32) -> u64
    requires { (plan.length ≤ 32) × (plan.counts.pools ≤ 4) × (pool < plan.counts.pools) }
    ensures { InUse plan pool handover minute result }
{
    let mut sum: u64 = 0;
    for step in &plan.steps[..plan.length] {
        sum += share(*step, pool, handover, minute);
    }
    sum
}

// The most of the pool that is in use in a minute. The use is largest where a step starts.
fn peak(plan: Plan, pool: usize, handover: u8) -> u64
    requires { (plan.length ≤ 32) × (plan.counts.pools ≤ 4) × (pool < plan.counts.pools) }
    ensures { PeakOf plan pool handover result }
{
    let mut most: u64 = 0;
    for step in &plan.steps[..plan.length] {
        most = most.max(in_use(plan, pool, handover, step.start));
    }
    most
}

// Test 17: in each minute the steps use no more of each pool than there is.
pub fn within(plan: Plan, job: Job) -> Result<(), Refusal>
    requires { (plan.length ≤ 32) × (plan.counts ≡ job.counts) × Fits job.counts }
    ensures { result ≡ first
        (PoolExceeded when any_below (length (job_in job).pools) (exceeds_pool (job_in job) (steps_of plan)) ∷ []) }
{
    let handovers = job::resources::handovers(job);
    for k in 0..job.counts.pools {
        if u64::from(job.pools[k]) < peak(plan, k, handovers[k]) {
            return Err(Refusal::PoolExceeded);
        }
    }
    Ok(())
}

// The peak of each pool, 0 for a pool that the job lacks.
pub fn peaks(plan: Plan, job: Job) -> [u32; Job::POOLS]
    requires { (plan.length ≤ 32) × (plan.counts ≡ job.counts) × Fits job.counts × SmallPeaks job plan }
    ensures { result ≡ peaks (job_in job) (steps_of plan) }
{
    let handovers = job::resources::handovers(job);
    let mut out = [0u32; Job::POOLS];
    for k in 0..job.counts.pools {
        out[k] = peak(plan, k, handovers[k]) as u32;
    }
    out
}
