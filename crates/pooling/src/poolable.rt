// Whether two jobs that pass their own tests can be pooled: tests 32 and 33.
ghost use Rattle.std.specs.Prelude.{◌≡◌};
ghost use Rattle.job.specs.Job.{job_in};
ghost use Rattle.pooling.specs.Pooled.{too_large, unlike};
ghost use Rattle.pooling.specs.Inner.{BothPass};

use crate::amounts;
use crate::handovers::any_differs;
use job::validate::any_over;
use job::{Job, resources};

// Test 32: whether the pooled job has over 64 facts or actions, or a sum over 1,000,000.
pub fn too_large(first: Job, second: Job) -> bool
    requires { BothPass first second }
    ensures { result ≡ too_large (job_in first) (job_in second) }
{
    let a = first.counts;
    let b = second.counts;
    let pools = amounts::pools(first, second);
    let stores = amounts::stores(first, second);
    (Job::FACTS < first.facts + second.facts)
        | (Job::ACTIONS < a.actions + b.actions)
        | any_over(Job::AVAILABILITY, pools, a.pools.max(b.pools))
        | any_over(Job::AVAILABILITY, stores, a.stores.max(b.stores))
}

// Test 33: whether handovers of a shared pool, head forms or reserves differ.
pub fn unlike(first: Job, second: Job) -> bool
    requires { BothPass first second }
    ensures { result ≡ unlike (job_in first) (job_in second) }
{
    let mine = first.rule;
    let other = second.rule;
    let shared = first.counts.pools.min(second.counts.pools);
    any_differs(
        shared,
        resources::handovers(first),
        resources::handovers(second),
    ) | (mine.head() != other.head())
        | (mine.reserve(first.reserve) != other.reserve(second.reserve))
}
