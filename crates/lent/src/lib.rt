// A slice that a test program lends, and what a call that hands out a day leaves in it.
#![tactic(auto)]

use job::Job;
use job::refusal::Refusal;
use timeline::{Day, Plan};

// What a byte of the slice holds before.
pub const FILL: u8 = 170;

// The first bytes, so many, or all where there are fewer.
pub fn front(bytes: &[u8], length: usize) -> &[u8] {
    &bytes[..length.min(bytes.len())]
}

// The same of a slice that is lent.
pub fn front_mut(bytes: &mut [u8], length: usize) -> &mut [u8] {
    let length = length.min(bytes.len());
    &mut bytes[..length]
}

// The first steps of a plan's bytes, so many, or all where there are fewer.
pub fn first_steps(plan: &[u8], steps: usize) -> &[u8] {
    front(plan, steps.min(Plan::STEPS) * Plan::STEP)
}

// Whether every byte from a place on is as before.
pub fn kept(slice: &[u8], from: usize) -> bool {
    slice.iter().skip(from).all(|byte| *byte == FILL)
}

// Whether the checker accepts the plan for the goal, with the end, the steps and the peaks that are told of it.
fn accepted(job: Job, goal: u64, plan: &[u8], told: Day) -> bool {
    match checker::check_for(job, goal, plan) {
        Ok(day) => day.end == told.end && day.steps == told.steps && day.peaks == told.peaks,
        Err(_) => false,
    }
}

// The plan that a call left at the front of the slice, no steps beside a refusal.
pub fn plan_of(slice: &[u8], day: Result<Day, Refusal>) -> &[u8] {
    match day {
        Ok(day) => first_steps(slice, day.steps),
        Err(_) => &[],
    }
}

// Whether the day ends at this minute, its steps stand at the front of the slice and are accepted for the goal as told,
// and the rest is as before.
pub fn handed_out(job: Job, goal: u64, slice: &[u8], day: Result<Day, Refusal>, end: u32) -> bool {
    let plan = plan_of(slice, day);
    match day {
        Ok(day) => day.end == end && accepted(job, goal, plan, day) && kept(slice, plan.len()),
        Err(_) => false,
    }
}

// Whether the day is refused by this number, or by the refusal that has it, and the whole slice is as before.
pub fn refused(slice: &[u8], day: Result<Day, Refusal>, by: impl Into<u8>) -> bool {
    day.err().map(u8::from) == Some(by.into()) && kept(slice, 0)
}
