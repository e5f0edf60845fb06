// The handovers of the pools of two jobs.
ghost use Rattle.std.specs.Prelude.{◌≡◌, not, ◌≤◌, eqb, get_or};
ghost use Rattle.lists.specs.Lists.{filled, any_below};
ghost use Rattle.job.specs.Job.{job_in};
ghost use Rattle.pooling.specs.Pooled.{pooled};
ghost use Rattle.pooling.specs.Inner.{BothPass};

use job::{Job, resources};

// The handovers of the pooled job: a missing pool takes the other's.
pub fn pooled(first: Job, second: Job) -> [u8; Job::POOLS]
    requires { BothPass first second }
    ensures { result ≡ filled 4 0 (pooled (job_in first) (job_in second)).handovers }
{
    let a = first.counts.pools;
    let b = second.counts.pools;
    let mine = resources::handovers(first);
    let other = resources::handovers(second);
    let mut handovers = [0u8; Job::POOLS];
    handovers[..b].copy_from_slice(&other[..b]);
    handovers[..a].copy_from_slice(&mine[..a]);
    handovers
}

// Whether one of the first n handovers differs.
pub fn any_differs(n: usize, a: [u8; Job::POOLS], b: [u8; Job::POOLS]) -> bool
    requires { n ≤ 4 }
    ensures { result ≡ any_below n (λ k. not (eqb (get_or a k 0) (get_or b k 0))) }
{
    a[..n] != b[..n]
}
