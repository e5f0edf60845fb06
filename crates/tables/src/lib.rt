// A job in tables of numbers, for the search to borrow; the steps that it has chosen.
#![tactic(auto)]

pub mod layout; // where the tables have what
pub mod fill; // the tables of a job
pub mod longer; // which of two has more minutes

ghost use Rattle.std.specs.Prelude.{◌≡◌, ◌<◌};
ghost use Rattle.tables.specs.Tables.{no_steps, pushed};
ghost use Rattle.tables.specs.Filled.{FramedAs};

use job::{Job, resources};
use timeline::Plan;

// What of the job is no table, and what is asked of it. The search is for the goal, from the first free minute up to
// the horizon, with the kept steps. New steps that start at the first free minute have the action's number `least` or
// a later one; kept steps stand before them in the plan's order. The table of times counts from its origin; `given` are
// facts that kept steps may have added, which no step has to add on the way to another fact.
#[derive(Clone, Copy)]
pub struct Frame {
    pub facts: u8,
    pub actions: usize,
    pub pools: usize,
    pub stores: usize,
    pub available: [u32; Job::POOLS],
    pub supplies: [u32; Job::STORES], // what the stores have
    pub stocks: [u32; Job::STORES], // how much of it may be used up
    pub handovers: [u8; Job::POOLS],
    pub start: u64,
    pub goal: u64,
    pub first: u16,
    pub least: u8,
    pub horizon: u16,
    pub kept: Steps,
    pub origin: u16,
    pub given: u64,
}

impl Frame {
    // The frame of a job up to its deadline, for tables of what is left of the day from the first free minute on.
    pub fn of(job: Job, goal: u64, first: u16, kept: Steps) -> Frame
        ensures { FramedAs job goal first kept result }
    {
        let counts = job.counts;
        let available = job.pools;
        let supplies = job.stores;
        let stocks = resources::allowed(job);
        let handovers = resources::handovers(job);
        Frame {
            facts: job.facts,
            actions: counts.actions,
            pools: counts.pools,
            stores: counts.stores,
            available,
            supplies,
            stocks,
            handovers,
            start: job.start,
            goal,
            first,
            least: 0,
            horizon: job.deadline,
            kept,
            origin: first,
            given: 0,
        }
    }
}

// The chosen steps, in the order in which they were chosen: each an action and its start. Arrays with a count: no heap.
#[derive(Clone, Copy)]
pub struct Steps {
    pub count: usize,
    pub numbers: [u8; Plan::STEPS],
    pub starts: [u16; Plan::STEPS],
}

impl Steps {
    // No steps.
    pub fn none() -> Steps
        ensures { result ≡ no_steps }
    {
        Steps {
            count: 0,
            numbers: [0u8; Plan::STEPS],
            starts: [0u16; Plan::STEPS],
        }
    }

    // The steps with one more.
    pub fn push(self, number: u8, start: u16) -> Steps
        requires { self.count < 32 }
        ensures { result ≡ pushed self number start }
    {
        let mut more = self;
        let at = self.count;
        more.numbers[at] = number;
        more.starts[at] = start;
        more.count = at + 1;
        more
    }
}
