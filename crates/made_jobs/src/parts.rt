// A job built up part by part.
use job::same::same;
use job::{Action, Counts, Form, Job, StoreRule};

// A job without pools, stores and actions.
pub fn empty(facts: u8, deadline: u16, start: u64, goal: u64) -> Job {
    Job {
        facts,
        deadline,
        start,
        goal,
        ..Job::zero()
    }
}

// An action that uses nothing.
pub fn action(length: u8, needs: u64, adds: u64, deletes: u64) -> Action {
    Action {
        duration: length,
        needs,
        adds,
        deletes,
        ..Action::unused()
    }
}

// The action with a use of the first pool and one of the first store.
pub fn using(mut action: Action, pool: u32, store: u32) -> Action {
    action.pools[0] = pool;
    action.stores[0] = store;
    action
}

// Puts one more behind the first `count`, where there is room.
fn put<T: Copy>(places: &mut [T], count: &mut usize, one_more: T) {
    if *count < places.len() {
        places[*count] = one_more;
        *count += 1;
    }
}

// The job with one action more.
pub fn with_action(mut job: Job, action: Action) -> Job {
    put(&mut job.actions, &mut job.counts.actions, action);
    job
}

// The job with two actions more.
pub fn with_two(job: Job, first: Action, second: Action) -> Job {
    with_action(with_action(job, first), second)
}

// The job with one pool more.
pub fn with_pool(mut job: Job, availability: u32) -> Job {
    put(&mut job.pools, &mut job.counts.pools, availability);
    job
}

// The job with one store more.
pub fn with_store(mut job: Job, availability: u32) -> Job {
    put(&mut job.stores, &mut job.counts.stores, availability);
    job
}

// The job with other counts; its arrays stay.
pub fn with_counts(job: Job, pools: usize, stores: usize, actions: usize) -> Job {
    let counts = Counts {
        pools,
        stores,
        actions,
    };
    Job { counts, ..job }
}

// The job in another form.
pub fn with_form(job: Job, form: Form) -> Job {
    Job { form, ..job }
}

// The job under another rule, with another reserve.
pub fn with_reserve(job: Job, rule: StoreRule, reserve: u8) -> Job {
    Job {
        rule,
        reserve,
        ..job
    }
}

// The job in another form, with other handovers.
pub fn with_handovers(job: Job, form: Form, handovers: [u8; Job::POOLS]) -> Job {
    Job {
        form,
        handovers,
        ..job
    }
}

// The job in another form, with other shortest lengths.
pub fn with_shortest(job: Job, form: Form, shortest: [u8; Job::ACTIONS]) -> Job {
    Job {
        form,
        shortest,
        ..job
    }
}

// The job as if it had every pool, store and action, handovers, shortest lengths and a reserve.
fn whole(job: Job) -> Job {
    let most = with_counts(job, Job::POOLS, Job::STORES, Job::ACTIONS);
    Job {
        form: Form::Six,
        rule: StoreRule::PerHour,
        ..most
    }
}

// Whether two jobs agree in every place, also beyond their counts, forms and rules.
pub fn same_everywhere(a: Job, b: Job) -> bool {
    a.form.entries() == b.form.entries()
        && a.rule.head() == b.rule.head()
        && a.counts.pools == b.counts.pools
        && a.counts.stores == b.counts.stores
        && a.counts.actions == b.counts.actions
        && same(whole(a), whole(b))
}
