// The rules of document 01 on a small day, minute by minute: which actions may start, what holds and what is left.
ghost use Rattle.std.specs.Prelude.{◌<◌, ◌≤◌};

use job::{Action, Counts, Job};

// What is the same in every minute of a day.
#[derive(Clone, Copy)]
pub struct Day {
    pub goal: u64,
    pub counts: Counts,
    pub pools: [u32; Job::POOLS],
    pub handovers: [u8; Job::POOLS],
    pub actions: [Action; Day::ACTIONS],
    ghost small: { counts.actions ≤ 8 },
}

impl Day {
    // The most actions.
    pub const ACTIONS: usize = 8;

    // The most steps of a plan.
    pub const STEPS: usize = 32;
}

// How an action runs. It clashes with itself, so at most one step of it runs, and at most one ends in a minute.
#[derive(Clone, Copy)]
pub struct Run {
    pub left: u32, // minutes that it still runs, 0 where it doesn't run
    pub ended: u32, // bit k: whether a step of it ended k minutes ago, for k up to 31
}

impl Run {
    // What the runs leave of an amount of which each holds so much, up to this many minutes after its end. A handover is
    // at most 30 minutes.
    fn leaves(self, amount: u32, held: u32, handover: u8) -> u32 {
        let mut amount = amount;
        if 0 < self.left {
            amount = amount.saturating_sub(held);
        }
        let mut bits = self.ended;
        for _ in 0..handover {
            if bits % 2 == 1 {
                amount = amount.saturating_sub(held);
            }
            bits /= 2;
        }
        amount
    }

    // The same one minute later.
    fn a_minute_later(self) -> Run {
        let before = self.ended << 1;
        Run {
            left: self.left.saturating_sub(1),
            ended: if self.left == 1 { before | 1 } else { before },
        }
    }
}

// The state of a day in a minute.
#[derive(Clone, Copy)]
pub struct State<'d> {
    pub day: &'d Day,
    pub facts: u64,
    pub runs: [Run; Day::ACTIONS], // of each action
    pub stores: [u32; Job::STORES], // what is left of each store
    pub steps: u32, // how many steps may still start
}

// Whether every fact in a is in b.
fn within(a: u64, b: u64) -> bool {
    (a & b) == a
}

// Whether x deletes a fact that y needs or adds.
fn hinders(x: &Action, y: &Action) -> bool {
    (x.deletes & (y.needs | y.adds)) != 0
}

impl<'d> State<'d> {
    // Whether a step of the action, or of one that it clashes with, is running.
    fn clashes(&self, number: usize, action: &Action) -> bool {
        self.day.actions.iter().zip(&self.runs).enumerate().any(|(i, (other, run))| {
            0 < run.left && (i == number || hinders(action, other) || hinders(other, action))
        })
    }

    // What the running steps, and those that ended less than its handover ago, leave free of the pool.
    fn free(&self, pool: usize) -> u32
        requires { pool < 4 }
    {
        let handover = self.day.handovers[pool];
        let mut amount = self.day.pools[pool];
        for (action, run) in self.day.actions.iter().zip(&self.runs) {
            amount = run.leaves(amount, action.pools[pool], handover);
        }
        amount
    }

    // Whether the action uses more of some pool than is free.
    fn exceeds_pools(&self, action: &Action) -> bool {
        for (k, used) in action.pools.iter().enumerate() {
            if k < self.day.counts.pools && self.free(k) < *used {
                return true;
            }
        }
        false
    }

    // Whether the action uses more of some store than is left.
    fn exceeds_stores(&self, action: &Action) -> bool {
        action
            .stores
            .iter()
            .zip(&self.stores)
            .take(self.day.counts.stores)
            .any(|(used, left)| left < used)
    }

    // Whether an action uses more of some pool or store than there is (26), in the state before any step.
    pub fn any_beyond(&self) -> bool {
        self.day.actions[..self.day.counts.actions].iter().any(|action| self.exceeds_pools(action)
            || self.exceeds_stores(action))
    }

    // Whether a step of the action may start now and stop by the horizon, which is `left` minutes away.
    pub fn may_start(&self, number: usize, left: u32) -> bool
        requires { number < 8 }
    {
        let action = &self.day.actions[number];
        u32::from(action.duration) <= left
            && 0 < self.steps
            && within(action.needs, self.facts)
            && !self.clashes(number, action)
            && !self.exceeds_pools(action)
            && !self.exceeds_stores(action)
    }

    // The state when a step of the action has started.
    pub fn started(mut self, number: usize) -> Self
        requires { number < 8 }
    {
        let action = &self.day.actions[number];
        self.runs[number].left = u32::from(action.duration);
        for (left, used) in self.stores.iter_mut().zip(&action.stores) {
            *left = left.saturating_sub(*used);
        }
        self.steps = self.steps.saturating_sub(1);
        self
    }

    // The state one minute later: what the steps ending then delete goes, and what they add comes.
    pub fn tick(mut self) -> Self {
        let mut deletes = 0u64;
        let mut adds = 0u64;
        let actions = &self.day.actions;
        for (run, action) in self.runs.iter_mut().zip(actions) {
            if run.left == 1 {
                deletes |= action.deletes;
                adds |= action.adds;
            }
            *run = run.a_minute_later();
        }
        self.facts = (self.facts ^ (self.facts & deletes)) | adds;
        self
    }

    // The state so many minutes later, where no step starts.
    pub fn minutes_later(mut self, minutes: u32) -> Self {
        for _ in 0..minutes {
            self = self.tick();
        }
        self
    }

    pub fn goal_holds(&self) -> bool {
        within(self.day.goal, self.facts)
    }
}
