// Whether two values hold the same job.
ghost use Rattle.std.specs.Prelude.{◌≡◌, length, get_or, take};
ghost use Rattle.std.specs.Cmp.Lexicographic.{pointwise};
ghost use Rattle.lists.specs.Lists.{tabulate, firsts};
ghost use Rattle.lists.specs.Answer.{Decides};
ghost use Rattle.job.specs.Job.{beyond, action_in, job_in};

use crate::{Action, Counts, Job};

// Whether the first n elements agree. Past their ends two slices of one length agree by themselves.
fn same_first<T: Eq>(n: usize, a: &[T], b: &[T]) -> bool
    requires { length a.now ≡ length b.now }
    ensures { result ≡ pointwise T.eq (take n a.now) (take n b.now) }
{
    let n = n.min(a.len());
    a[..n] == b[..n]
}

// Whether two actions agree in a job with so many pools and stores.
fn same_action(counts: Counts, a: Action, b: Action) -> bool
    ensures { Decides result (action_in counts a ≡ action_in counts b) }
{
    (a.duration == b.duration)
        & (a.needs == b.needs)
        & (a.adds == b.adds)
        & (a.deletes == b.deletes)
        & same_first(counts.pools, &a.pools, &b.pools)
        & same_first(counts.stores, &a.stores, &b.stores)
}

// Whether all actions that are counted agree.
fn same_actions(counts: Counts, a: [Action; Job::ACTIONS], b: [Action; Job::ACTIONS]) -> bool
    ensures { Decides result
        (tabulate counts.actions (λ i. action_in counts (get_or a i beyond))
        ≡ tabulate counts.actions (λ i. action_in counts (get_or b i beyond))) }
{
    for i in 0..counts.actions.min(Job::ACTIONS) {
        if !same_action(counts, a[i], b[i]) {
            return false;
        }
    }
    true
}

// Whether two values hold the same job: their forms, their counts and all within them agree; what is beyond is ignored.
pub fn same(a: Job, b: Job) -> bool
    ensures { Decides result (job_in a ≡ job_in b) }
{
    (a.facts == b.facts)
        & (a.deadline == b.deadline)
        & (a.start == b.start)
        & (a.goal == b.goal)
        & (a.form == b.form)
        & (a.rule == b.rule)
        & (a.rule.reserve(a.reserve) == b.rule.reserve(b.reserve))
        & (a.counts == b.counts)
        & same_first(a.counts.pools, &a.pools, &b.pools)
        & same_first(a.form.handovers(a.counts.pools), &a.handovers, &b.handovers)
        & same_first(a.counts.stores, &a.stores, &b.stores)
        & same_first(a.form.shortest(a.counts.actions), &a.shortest, &b.shortest)
        & same_actions(a.counts, a.actions, b.actions)
}
