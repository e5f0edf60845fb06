// Amounts of pools and stores, place by place.
ghost use Rattle.std.specs.Prelude.{◌≡◌, ◌≤◌, length};
ghost use Rattle.lists.specs.Lists.{filled};
ghost use Rattle.job.specs.Passed.{Amounts};
ghost use Rattle.job.specs.Job.{job_in};
ghost use Rattle.pooling.specs.Pooled.{plus};
ghost use Rattle.pooling.specs.Inner.{BothPass};

use job::Job;

// The amounts, and zeros behind them.
pub fn counted(amounts: &[u32]) -> [u32; Job::AMOUNTS]
    requires { length amounts.now ≤ 4 }
    ensures { result ≡ filled 4 0 amounts.now }
{
    let mut counted = [0u32; Job::AMOUNTS];
    counted[..amounts.len()].copy_from_slice(amounts);
    counted
}

// The amounts of a and of b, added place by place; a missing one counts 0.
fn sums(a: &[u32], b: &[u32]) -> [u32; Job::AMOUNTS]
    requires { (length a.now ≤ 4) × (length b.now ≤ 4) × Amounts a.now × Amounts b.now }
    ensures { result ≡ filled 4 0 (plus a.now b.now) }
{
    let mine = counted(a);
    let other = counted(b);
    let mut sums = [0u32; Job::AMOUNTS];
    for place in 0..Job::AMOUNTS {
        sums[place] = mine[place] + other[place];
    }
    sums
}

// The availabilities of the pools of both jobs.
pub fn pools(first: Job, second: Job) -> [u32; Job::POOLS]
    requires { BothPass first second }
    ensures { result ≡ filled 4 0 (plus (job_in first).pools (job_in second).pools) }
{
    sums(
        &first.pools[..first.counts.pools],
        &second.pools[..second.counts.pools],
    )
}

// The availabilities of the stores of both jobs.
pub fn stores(first: Job, second: Job) -> [u32; Job::STORES]
    requires { BothPass first second }
    ensures { result ≡ filled 4 0 (plus (job_in first).stores (job_in second).stores) }
{
    sums(
        &first.stores[..first.counts.stores],
        &second.stores[..second.counts.stores],
    )
}
