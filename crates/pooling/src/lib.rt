// Two jobs pooled to one: two job values in; the pooled job, or the first refusal of the first job, of the second, of
// 32 and of 33, out.
#![tactic(auto)]

mod amounts; // availabilities and uses place by place
mod actions; // actions one behind the other
mod handovers; // handovers of the pools of both
mod poolable; // whether two jobs can be pooled: tests 32 and 33

ghost use Rattle.std.specs.Prelude.{◌≡◌};
ghost use Rattle.job.specs.Job.{job_in, job_value};
ghost use Rattle.pooling.specs.Pooled.{more_entries, pooled, Pools};
ghost use Rattle.pooling.specs.Inner.{Poolable};

use job::refusal::Refusal;
use job::validate::validate;
use job::{Counts, Form, Job};

// The form with more entries of two.
fn more_entries(a: Form, b: Form) -> Form
    ensures { result ≡ more_entries a b }
{
    if a.entries() < b.entries() {
        return b;
    }
    a
}

// The job that two jobs become. Not inlined: so its copies of both jobs take no stack where it is not running.
#[inline(never)]
fn pooled_job(first: Job, second: Job) -> Job
    requires { Poolable first second }
    ensures { result ≡ job_value (pooled (job_in first) (job_in second)) }
{
    let form = more_entries(first.form, second.form);
    let rule = first.rule;
    let a = first.counts;
    let b = second.counts;
    let counts = Counts {
        pools: a.pools.max(b.pools),
        stores: a.stores.max(b.stores),
        actions: a.actions + b.actions,
    };
    let pools = amounts::pools(first, second);
    let stores = amounts::stores(first, second);
    let handovers = handovers::pooled(first, second);
    let shortest = actions::shortest(form, first, second);
    let actions = actions::all(first, second);
    Job {
        facts: first.facts + second.facts,
        deadline: first.deadline.max(second.deadline),
        start: actions::joined(first.facts, first.start, second.start),
        goal: actions::joined(first.facts, first.goal, second.goal),
        form,
        rule,
        reserve: rule.reserve(first.reserve),
        counts,
        pools,
        handovers,
        stores,
        shortest,
        actions,
    }
}

// The job that two jobs become, or the first refusal of the first job, of the second, of 32 and of 33.
pub fn pool(first: Job, second: Job) -> Result<Job, Refusal>
    ensures { Pools (job_in first) (job_in second) result }
{
    validate(first)?;
    validate(second)?;
    if poolable::too_large(first, second) {
        return Err(Refusal::PoolTooLarge);
    }
    if poolable::unlike(first, second) {
        return Err(Refusal::PoolUnlike);
    }
    Ok(pooled_job(first, second))
}
