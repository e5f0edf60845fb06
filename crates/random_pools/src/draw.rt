// Pairs of very small jobs, so that the second planner can try every plan of the pooled job.
use job::{Form, Job};
use made_jobs::parts::{with_counts, with_handovers, with_reserve};
use random_jobs::{draw, random_job};
use timeline::Plan;

// The places of the draws. No other draw of a seed has them.
const FIRST: u64 = 40;

const SECOND: u64 = 41;

const ALIKE: u64 = 42;

const POOLS: u64 = 43;

const AVAILABILITY: u64 = 44;

// The most that an action of a random job uses of a pool.
const MOST_USED: u32 = 3;

// How many jobs are drawn at most, for one that has a plan.
const DRAWS: u64 = 4;

// The most actions of a job, and its latest deadline. A plan has at most 3 times 5 steps, so two have together at most
// 32.
const ACTIONS: usize = 3;

const DEADLINE: u16 = 5;

// Two jobs, and whether the second was made like the first, so that 33 is not told.
#[derive(Clone, Copy)]
pub struct Pair {
    pub first: Job,
    pub second: Job,
    pub alike: bool,
}

// The job of a seed with its first actions alone and an early deadline; it has one pool or two, which two of its
// actions seldom share.
fn small(seed: u64) -> Job {
    let mut job = random_job(seed);
    let counts = job.counts;
    job.deadline = job.deadline.min(DEADLINE);
    job.pools = [MOST_USED + u32::from(draw::number(seed, AVAILABILITY, 2)); Job::POOLS];
    let pools = 1 + usize::from(draw::number(seed, POOLS, 2));
    with_counts(job, pools, counts.stores, counts.actions.min(ACTIONS))
}

fn has_plan(job: Job) -> bool {
    let mut slice = [0u8; Plan::BYTES];
    planner::plan(job, &mut slice).is_ok()
}

// The first of some small jobs that has a plan, or another where none has.
fn job(seed: u64) -> Job {
    for k in 0..DRAWS {
        let job = small(draw::part(seed, k));
        if has_plan(job) {
            return job;
        }
    }
    small(seed)
}

// The second job with the head, the reserve and the handovers of the first. Under the old rule their values may still
// hold different reserves, which are ignored.
fn like(first: Job, second: Job) -> Job {
    let rule = first.rule;
    let form = match second.form {
        Form::Four => first.form,
        own => own,
    };
    let second = with_reserve(second, rule, rule.reserve(first.reserve));
    with_handovers(second, form, job::resources::handovers(first))
}

// The jobs of a seed. In seven draws of eight the second is made like the first.
pub fn pair_of(seed: u64) -> Pair {
    let first = job(draw::part(seed, FIRST));
    let second = job(draw::part(seed, SECOND));
    let alike = 0 < draw::number(seed, ALIKE, 8);
    Pair {
        first,
        second: if alike { like(first, second) } else { second },
        alike,
    }
}
