// Jobs with one thing changed.
use job::{Action, Job};
use made_jobs::parts;

// An action of a job with at most one pool and one store.
pub fn action(length: u8, needs: u64, adds: u64, deletes: u64, pool: u32, store: u32) -> Action {
    parts::using(parts::action(length, needs, adds, deletes), pool, store)
}

// Two facts, a pool, a store and two actions. The amounts stand at their limits, so that one more is too much.
pub fn base() -> Job {
    let first = action(255, 1, 2, 1, 1_000_000, 1_000_000);
    let second = action(1, 2, 1, 0, 3, 7);
    let pool = parts::with_pool(parts::empty(2, 1_440, 1, 2), 1_000_000);
    parts::with_two(parts::with_store(pool, 1_000_000), first, second)
}

pub fn with_head(job: Job, facts: u8, deadline: u16, start: u64, goal: u64) -> Job {
    Job {
        facts,
        deadline,
        start,
        goal,
        ..job
    }
}

pub fn with_first_pool(mut job: Job, amount: u32) -> Job {
    job.pools[0] = amount;
    job
}

pub fn with_first_store(mut job: Job, amount: u32) -> Job {
    job.stores[0] = amount;
    job
}

pub fn with_action(mut job: Job, at: usize, action: Action) -> Job {
    if let Some(place) = job.actions.get_mut(at) {
        *place = action;
    }
    job
}
