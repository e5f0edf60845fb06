// Test 26 of a job value: whether an action can never run.
ghost use Rattle.std.specs.Prelude.{◌≡◌, ◌≤◌, get_or};
ghost use Rattle.lists.specs.Lists.{firsts, any, any_below};
ghost use Rattle.job.specs.Job.{action_in, job_in, Fits};
ghost use Rattle.job.specs.Valid.{over, uses_beyond};

use crate::{Action, Job, resources};

// Four amounts as numbers of 64 bits.
pub fn widened(amounts: [u32; Job::AMOUNTS]) -> [u64; Job::AMOUNTS]
    ensures { result ≡ firsts 4 0 amounts }
{
    [
        u64::from(amounts[0]),
        u64::from(amounts[1]),
        u64::from(amounts[2]),
        u64::from(amounts[3]),
    ]
}

// Whether one of the first n amounts is over its own limit. All places are compared, and nothing leaves the loop: that
// compiles to one comparison of four.
pub fn any_above(limits: [u64; Job::AMOUNTS], amounts: [u64; Job::AMOUNTS], n: usize) -> bool
    requires { n ≤ 4 }
    ensures { result ≡ any_below n (λ k. over (get_or limits k 0) (get_or amounts k 0)) }
{
    let mut found = false;
    for k in 0..Job::AMOUNTS {
        found |= (k < n) & (limits[k] < amounts[k]);
    }
    found
}

// Whether the action uses more of a pool or store than is available.
fn uses_beyond(job: Job, action: Action) -> bool
    requires { Fits job.counts }
    ensures { result ≡ uses_beyond (job_in job) (action_in job.counts action) }
{
    let allowed = resources::allowed(job);
    let charged = resources::charged(job, action);
    any_above(widened(job.pools), widened(action.pools), job.counts.pools)
        | any_above(widened(allowed), charged, job.counts.stores)
}

// Whether some action of the job does. Nothing leaves this loop either.
pub fn any_beyond(job: Job) -> bool
    requires { Fits job.counts }
    ensures { result ≡ any (uses_beyond (job_in job)) (job_in job).actions }
{
    let counts = job.counts;
    let mut found = false;
    for i in 0..counts.actions {
        found |= uses_beyond(job, job.actions[i]);
    }
    found
}
