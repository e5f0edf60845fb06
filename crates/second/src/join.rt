// Two plans joined by the words of document 02, and what a plan's bytes say: its number of steps and its end, whether or
// not it is accepted. The plans pass tests 12 to 15.
use crate::day::Day;
use crate::steps::Step;
use crate::{resources, steps};
use job::Job;

// The number of a plan's steps, and its end.
#[derive(Clone, Copy)]
pub struct Extent {
    pub steps: usize,
    pub end: u32,
}

// The minutes that the action takes.
fn length(job: &Job, number: u8) -> u8 {
    match job.actions.get(usize::from(number)) {
        Some(action) => action.duration,
        None => 0,
    }
}

pub fn extent_of(job: Job, plan: &[u8]) -> Extent {
    let steps = steps::bytes_of(plan);
    let mut end = 0u32;
    for bytes in steps {
        let step = Step::from(*bytes);
        end = end.max(u32::from(step.start) + u32::from(length(&job, step.number)));
    }
    Extent {
        steps: steps.len(),
        end,
    }
}

// The largest handover of the job's pools.
fn largest_handover(job: &Job) -> u32 {
    let handovers = resources::handovers(job);
    u32::from(
        handovers
            .iter()
            .copied()
            .take(job.counts.pools)
            .max()
            .unwrap_or(0),
    )
}

// How much later the steps start that are joined behind a plan. Behind no steps they start as they did.
pub fn minutes_behind(job: Job, first: Extent) -> u32 {
    if first.steps == 0 {
        return 0;
    }
    first.end.wrapping_add(largest_handover(&job))
}

// What two plans are together.
pub fn joined(job: Job, first: Extent, second: Extent) -> Extent {
    if second.steps == 0 {
        return first;
    }
    Extent {
        steps: first.steps.wrapping_add(second.steps),
        end: minutes_behind(job, first).wrapping_add(second.end),
    }
}

// Whether there are over 32 steps, or they end after the deadline (34).
pub fn too_long(job: Job, whole: Extent) -> bool {
    Day::STEPS < whole.steps || u32::from(job.deadline) < whole.end
}

// Writes a plan's steps so many minutes later, behind so many steps, where the slice has those places.
pub fn write_later(out: &mut [u8], behind: usize, plan: &[u8], minutes: u32) {
    let places = out.as_chunks_mut::<{ Step::BYTES }>().0;
    let minutes = (minutes % 65_536) as u16;
    for (to, bytes) in places.iter_mut().skip(behind).zip(steps::bytes_of(plan)) {
        let step = Step::from(*bytes);
        *to = <[u8; Step::BYTES]>::from(Step {
            start: step.start.wrapping_add(minutes),
            ..step
        });
    }
}
