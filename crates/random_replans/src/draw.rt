// What is drawn beside a random job: the current plan, the minute and the new goal.
use job::Job;
use random_jobs::{draw, other_goal};

// The places of the draws. No other draw of a seed has them.
const OLD_GOAL: u64 = 30;

const NEW_GOAL: u64 = 31;

const STEPS: u64 = 32;

const MINUTES: u64 = 33;

const MINUTE: u64 = 34;

pub fn new_goal(seed: u64, job: &Job) -> u64 {
    other_goal(draw::part(seed, NEW_GOAL), job)
}

// Writes a plan for another goal to the slice, if there is one, and returns how many of its first steps, up to 4, are
// the current plan. An accepted plan without its last steps still passes 12 to 19.
pub fn current_steps(seed: u64, mut job: Job, slice: &mut [u8]) -> usize {
    job.goal = other_goal(draw::part(seed, OLD_GOAL), &job);
    let most = 1 + usize::from(draw::number(seed, STEPS, 4));
    planner::plan(job, slice).map_or(0, |day| day.steps.min(most))
}

// Minutes 0 to 10, the early ones more often, since most plans are short. No deadline is after 9.
pub fn minute(seed: u64) -> u16 {
    let minutes = 3 + draw::number(seed, MINUTES, 9);
    u16::from(draw::number(seed, MINUTE, minutes))
}
