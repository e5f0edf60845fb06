// The actions of two jobs one behind the other, and their sets of facts.
ghost use Rattle.std.specs.Prelude.{◌≡◌, ◌++◌, ℕ, ◌+◌, ◌^◌, ◌<◌, ◌≤◌, get_or};
ghost use Rattle.lists.specs.Lists.{filled};
ghost use Rattle.job.specs.Job.{beyond, job_in, Fits};
ghost use Rattle.pooling.specs.Pooled.{behind, joined_behind, pooled, shortest_in, shortest_lengths};
ghost use Rattle.pooling.specs.Inner.{FitsBehind, BehindValue, HasActions, ActionsBehind, LengthsBehind};
ghost use Rattle.pooling.specs.Inner.{Poolable};

use crate::amounts::counted;
use facts::union;
use job::lengths::shortest as shortest_of;
use job::{Action, Counts, Form, Job};

// The set with each fact so much higher.
fn behind(facts: u8, set: u64) -> u64
    requires { behind facts set < 2 ^ 64 }
    ensures { result ≡ behind facts set }
{
    if facts::BITS <= facts {
        return 0;
    }
    set << facts
}

// A set, and behind so many facts another.
pub fn joined(facts: u8, set: u64, other: u64) -> u64
    requires { behind facts other < 2 ^ 64 }
    ensures { result ≡ joined_behind facts set other }
{
    union(set, behind(facts, other))
}

// The action of a job with these counts, its facts numbered behind so many; unused places zero.
fn renumbered(action: Action, counts: Counts, facts: u8) -> Action
    requires { Fits counts × FitsBehind facts action }
    ensures { BehindValue counts facts action result }
{
    Action {
        duration: action.duration,
        needs: behind(facts, action.needs),
        adds: behind(facts, action.adds),
        deletes: behind(facts, action.deletes),
        pools: counted(&action.pools[..counts.pools]),
        stores: counted(&action.stores[..counts.stores]),
    }
}

// The array with the actions of the job put behind the first ones.
fn put(mut out: [Action; Job::ACTIONS], at: usize, job: Job, facts: u8) -> [Action; Job::ACTIONS]
    requires { Fits job.counts × (at + job.counts.actions ≤ 64)
        × ((i : ℕ) → i < job.counts.actions → FitsBehind facts (get_or job.actions i beyond)) }
    ensures { ActionsBehind job facts at out result }
{
    for i in 0..job.counts.actions {
        out[at + i] = renumbered(job.actions[i], job.counts, facts);
    }
    out
}

// The actions of both jobs.
pub fn all(first: Job, second: Job) -> [Action; Job::ACTIONS]
    requires { Poolable first second }
    ensures { HasActions result (pooled (job_in first) (job_in second)).actions }
{
    let none = [Action::unused(); Job::ACTIONS];
    let mine = put(none, 0, first, 0);
    put(mine, first.counts.actions, second, first.facts)
}

// The array with the shortest lengths of the job's actions put behind the first ones.
fn put_shortest(mut out: [u8; Job::ACTIONS], at: usize, job: Job) -> [u8; Job::ACTIONS]
    requires { Fits job.counts × (at + job.counts.actions ≤ 64) }
    ensures { LengthsBehind job at out result }
{
    for i in 0..job.counts.actions {
        out[at + i] = shortest_of(job.form, job.shortest[i], job.actions[i].duration);
    }
    out
}

// The shortest lengths of the actions of both jobs.
fn all_shortest(first: Job, second: Job) -> [u8; Job::ACTIONS]
    requires { Poolable first second }
    ensures { result ≡ filled 64 0 (shortest_lengths (job_in first) ++ shortest_lengths (job_in second)) }
{
    let none = [0u8; Job::ACTIONS];
    let mine = put_shortest(none, 0, first);
    put_shortest(mine, first.counts.actions, second)
}

// The shortest lengths that the pooled job of this form has.
pub fn shortest(form: Form, first: Job, second: Job) -> [u8; Job::ACTIONS]
    requires { Poolable first second }
    ensures { result ≡
        filled 64 0 (shortest_in form (shortest_lengths (job_in first) ++ shortest_lengths (job_in second))) }
{
    match form {
        Form::Four => [0u8; Job::ACTIONS],
        Form::Five => [0u8; Job::ACTIONS],
        Form::Six => all_shortest(first, second),
    }
}
