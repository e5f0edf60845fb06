// The timeline of a plan: definitions in specs/, their laws in proofs/, and a plan by value.
#![tactic(auto)]

ghost use Rattle.std.specs.Prelude.{◌≡◌, max};
ghost use Rattle.job.specs.Job.{action_in};
ghost use Rattle.job.specs.declared.Counts.{Counts};
ghost use Rattle.timeline.specs.Timeline.{hinders};

use job::{Action, Counts, Job};

// A step of a plan, with its action: it runs from `start` up to, and without, `stop`.
#[derive(Clone, Copy)]
pub struct Step {
    pub number: u8, // of its action
    pub action: Action,
    pub start: u32,
    pub stop: u32,
}

impl Step {
    // What stands in an unused place: all zero.
    pub fn unused() -> Step {
        let action = Action::unused();
        Step {
            number: 0,
            action,
            start: 0,
            stop: 0,
        }
    }
}

// A plan of a job with these counts: its first `length` steps.
#[derive(Clone, Copy)]
pub struct Plan {
    pub counts: Counts,
    pub length: usize,
    pub steps: [Step; Plan::STEPS],
}

impl Plan {
    // The most steps.
    pub const STEPS: usize = 32;

    // The bytes of a step, and of the longest plan.
    pub const STEP: usize = 3;

    pub const BYTES: usize = Plan::STEPS * Plan::STEP;

    // A plan with no steps.
    pub fn none(counts: Counts) -> Plan
        ensures { (result.length ≡ 0) × (result.counts ≡ counts) }
    {
        let unused = Step::unused();
        Plan {
            counts,
            length: 0,
            steps: [unused; Plan::STEPS],
        }
    }
}

// What is told of a day that is checked or handed out: its end, its number of steps, and for each pool the most that is
// in use together.
#[derive(Clone, Copy)]
pub struct Day {
    pub end: u32,
    pub steps: usize,
    pub peaks: [u32; Job::POOLS],
}

// Whether a deletes a fact that b needs or adds.
pub fn hinders(a: Action, b: Action) -> bool
    ensures { (n : Counts) → result ≡ hinders (action_in n a) (action_in n b) }
{
    facts::meets(a.deletes, facts::union(b.needs, b.adds))
}

// The later of two minutes.
pub fn later(a: u32, b: u32) -> u32
    ensures { result ≡ max a b }
{
    if a < b {
        return b;
    }
    a
}
