// What is told of two plans joined, by what is told of each.
ghost use Rattle.std.specs.Prelude.{◌≡◌, ◌||◌, ◌≤◌};
ghost use Rattle.job.specs.Job.{job_in, Fits};
ghost use Rattle.job.specs.Valid.{over};
ghost use Rattle.joining.specs.Join.{largest_handover};
ghost use Rattle.joining.specs.Inner.{offset, last_end, larger_peaks, both_days};

use job::Job;
use timeline::{Day, Plan};

// The largest handover of the job's pools, 0 for none.
fn largest_handover(job: Job) -> u8
    requires { Fits job.counts }
    ensures { result ≡ largest_handover (job_in job) }
{
    let handovers = job::resources::handovers(job);
    let mut most = 0u8;
    for handover in &handovers[..job.counts.pools] {
        most = most.max(*handover);
    }
    most
}

// How many minutes later the second plan starts: at the end of the first plus the largest handover, and at once where
// the first has no steps.
pub fn starts_at(job: Job, first: Day) -> u32
    requires { Fits job.counts × (first.end ≤ 1440) }
    ensures { result ≡ offset (largest_handover (job_in job)) first.steps first.end }
{
    if first.steps == 0 {
        return 0;
    }
    first.end + u32::from(largest_handover(job))
}

// The end of both plans, the second so many minutes later.
fn last_end(a: Day, b: Day, minutes: u32) -> u32
    requires { (minutes ≤ 2000) × (b.end ≤ 1440) }
    ensures { result ≡ last_end a.end minutes b.steps b.end }
{
    if b.steps == 0 {
        return a.end;
    }
    minutes + b.end
}

// Of each pool the larger of two peaks.
fn larger_peaks(a: [u32; Job::POOLS], b: [u32; Job::POOLS]) -> [u32; Job::POOLS]
    ensures { result ≡ larger_peaks a b }
{
    let mut larger = [0u32; Job::POOLS];
    for pool in 0..Job::POOLS {
        larger[pool] = a[pool].max(b[pool]);
    }
    larger
}

// What is told of two plans joined, the second so many minutes later. No share of the first is in use when the second
// starts, so that the larger peak is the peak of both.
pub fn both(a: Day, b: Day, minutes: u32) -> Day
    requires { (minutes ≤ 2000) × (b.end ≤ 1440) × (a.steps ≤ 32) × (b.steps ≤ 32) }
    ensures { result ≡ both_days a b minutes }
{
    Day {
        end: last_end(a, b, minutes),
        steps: a.steps + b.steps,
        peaks: larger_peaks(a.peaks, b.peaks),
    }
}

// Test 34: over 32 steps, or an end after the deadline.
pub fn too_long(job: Job, day: Day) -> bool
    ensures { result ≡ (over 32 day.steps || over job.deadline day.end) }
{
    (Plan::STEPS < day.steps) | (u32::from(job.deadline) < day.end)
}
