// Small random jobs for tests: the same seed gives the same job, and every job is within its limits. In some an
// action uses more of a pool or store than there is (26). What stands beyond the counts and the form is drawn as well,
// since it is to be ignored.
#![tactic(auto)]

mod actions; // the actions of a job
pub mod draw; // random numbers and sets of facts

ghost use Rattle.std.specs.Prelude.{◌<◌};

use crate::draw::Facts;
use job::{Counts, Form, Job, StoreRule};
use made_jobs::parts::{with_handovers, with_reserve};

// The largest availabilities, and the most that an action uses of a pool or store.
const MOST_OF_A_POOL: u8 = 6;

const MOST_OF_A_STORE: u8 = 8;

const MOST_USED: u32 = 3;

// What is peculiar to a job.
#[derive(Clone, Copy)]
pub enum Kind {
    Plain, // nothing
    Short, // no pools or stores, and an early deadline
    Token, // each action but the first takes fact 0 away, so that the first may be wanted several times
    Chain, // each action needs what the one before it adds, and the deadline is just met or just missed
    Ties, // all actions have the same length
    Handed, // a pool that two actions seldom share, and handovers
}

impl Kind {
    // The kind of a seed's job: two in seven have nothing peculiar.
    fn of(seed: u64) -> Kind {
        match seed % 7 {
            0 => Kind::Short,
            1 => Kind::Token,
            2 => Kind::Chain,
            3 => Kind::Ties,
            4 => Kind::Handed,
            _ => Kind::Plain,
        }
    }
}

// A chain has all 5 facts, any other job 2 to 5.
fn facts_of(seed: u64, kind: Kind) -> Facts {
    match kind {
        Kind::Chain => Facts::most(),
        _ => Facts {
            count: 2 + draw::number(seed, 0, 4),
        },
    }
}

// Up to 2 pools and 2 stores, and 2 to 5 actions. A short job has no pools and stores, and may have one action; one with
// handovers has a pool.
fn counts_of(seed: u64, kind: Kind) -> Counts {
    match kind {
        Kind::Short => Counts {
            pools: 0,
            stores: 0,
            actions: 1 + usize::from(draw::number(seed, 1, 5)),
        },
        Kind::Chain => Counts {
            pools: usize::from(draw::number(seed, 3, 3)),
            stores: usize::from(draw::number(seed, 4, 3)),
            actions: 4 + usize::from(draw::number(seed, 1, 2)),
        },
        Kind::Handed => Counts {
            pools: 1 + usize::from(draw::number(seed, 3, 2)),
            stores: 0,
            actions: 2 + usize::from(draw::number(seed, 1, 4)),
        },
        _ => Counts {
            pools: usize::from(draw::number(seed, 3, 3)),
            stores: usize::from(draw::number(seed, 4, 3)),
            actions: 2 + usize::from(draw::number(seed, 1, 4)),
        },
    }
}

// Three availabilities of 1 to `most`, and one of 0.
fn availabilities(seed: u64, most: u8) -> [u32; Job::AMOUNTS]
    requires { 0 < most }
{
    let [first, second, third] = [0, 1, 2].map(|place| 1
        + u32::from(draw::number(seed, place, most)));
    [first, second, third, 0]
}

// The pools. Where there are handovers, each action can run, and few beside another.
fn pools_of(seed: u64, kind: Kind) -> [u32; Job::POOLS] {
    match kind {
        Kind::Handed => [MOST_USED; Job::POOLS],
        _ => availabilities(draw::part(seed, 5), MOST_OF_A_POOL),
    }
}

// Half of the jobs have handovers and half of those shortest lengths, some only beyond their form.
fn form_of(seed: u64, kind: Kind) -> Form {
    match kind {
        Kind::Handed => Form::Five,
        _ => {
            if draw::number(seed, 15, 2) == 0 {
                Form::Four
            } else if draw::number(seed, 17, 2) == 0 {
                Form::Five
            } else {
                Form::Six
            }
        }
    }
}

// A quarter of the jobs are under the hourly rule, and some others have a reserve that is to be ignored.
fn rule_of(seed: u64) -> StoreRule {
    if draw::number(seed, 18, 4) == 0 {
        return StoreRule::PerHour;
    }
    StoreRule::PerStep
}

// Four handovers of 0 to 3 minutes.
fn handovers(seed: u64) -> [u8; Job::POOLS] {
    [0, 1, 2, 3].map(|place| draw::number(seed, place, 4))
}

// A job with five actions, their shortest lengths and nothing else.
fn with_actions(seed: u64, kind: Kind, facts: Facts) -> Job {
    let mut job = Job::zero();
    for i in 0..5usize {
        let action = actions::action(draw::part(seed, 10 + i as u64), kind, facts, i);
        job.actions[i] = action;
        job.shortest[i] = actions::shortest(draw::part(seed, 20 + i as u64), &action);
    }
    job
}

// The minutes of the first four actions, one after the other.
fn minutes(job: &Job) -> u16 {
    let mut sum = 0u16;
    for action in &job.actions[..4] {
        sum += u16::from(action.duration);
    }
    sum
}

// The deadline: 0 to 9, early for a short job, up to 12 with handovers. A chain meets it, or misses it by a minute.
fn deadline_of(seed: u64, kind: Kind, job: &Job) -> u16 {
    match kind {
        Kind::Short => u16::from(draw::number(seed, 2, 6)),
        Kind::Chain => minutes(job).saturating_sub(u16::from(draw::number(seed, 2, 2))),
        Kind::Handed => 6 + u16::from(draw::number(seed, 2, 7)),
        _ => 3 + u16::from(draw::number(seed, 2, 7)),
    }
}

// The start set. In three draws of four no fact that is wanted holds at the start.
fn start_of(seed: u64, facts: Facts, wanted: u64) -> u64 {
    let start = facts.set(draw::part(seed, 7), 0);
    if draw::number(seed, 8, 4) == 0 {
        return start;
    }
    draw::without(start, wanted)
}

// The job of a seed: 2 to 5 facts, 1 to 5 actions of 1 to 4 minutes, up to 2 pools and 2 stores, deadline 0 to 12. The
// goal is what action 1 and another action add, so that most goals can be reached.
pub fn random_job(seed: u64) -> Job {
    let kind = Kind::of(seed);
    let facts = facts_of(seed, kind);
    let mut job = with_actions(seed, kind, facts);
    let adds = job.actions[1].adds;
    let other = job.actions[2 * usize::from(draw::number(seed, 9, 2))].adds;
    job.facts = facts.count;
    job.deadline = deadline_of(seed, kind, &job);
    job.start = start_of(seed, facts, adds);
    job.goal = adds | other;
    job.counts = counts_of(seed, kind);
    job.pools = pools_of(seed, kind);
    job.stores = availabilities(draw::part(seed, 6), MOST_OF_A_STORE);
    if let Kind::Chain = kind {
        job.start = 1;
        job.goal |= 16;
    }
    let job = with_reserve(job, rule_of(seed), draw::number(seed, 19, 51));
    with_handovers(job, form_of(seed, kind), handovers(draw::part(seed, 16)))
}

// The same job with more plans: action 0 needs nothing, the goal is what the first two or three actions add, and there is
// so much of each pool and store that no action uses more (a reserve leaves at least half of a store).
pub fn roomy_job(seed: u64) -> Job {
    let mut job = random_job(seed);
    job.actions[0].needs = 0;
    job.goal = job.actions[0].adds | job.actions[1].adds;
    if 2 < job.counts.actions {
        job.goal |= job.actions[2].adds;
    }
    job.pools = [MOST_USED + u32::from(draw::number(seed, 50, 3)); Job::POOLS];
    job.stores = [2 * MOST_USED + u32::from(draw::number(seed, 51, 6)); Job::STORES];
    job
}

// Another goal for the job: one or two of five facts. Where one is not the job's, in three draws of four it is the job's
// own goal instead.
pub fn other_goal(seed: u64, job: &Job) -> u64 {
    let goal = Facts::most().set(seed, 0);
    let own = 0 < draw::number(seed, 3, 4);
    if own && facts::foreign(job.facts, goal) {
        return job.goal;
    }
    goal
}
