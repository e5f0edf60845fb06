// Begun days, planned anew.
use crate::Record;
use crate::calls::{print_day, unless};
use crate::lending::{ROOM, leading_number, rest};
use job::Job;
use lent::{FILL, first_steps, front_mut};
use std::io;
use timeline::Plan;

// The bytes of the minute that stands before the current plan.
const MINUTE: usize = 4;

// The replanner is lent a slice of so many bytes.
pub fn print(rt: &impl Print, job: Job, record: Record, given: &[u8]) -> io::Result<()> {
    let mut slice = [FILL; ROOM];
    let current = rest(given, MINUTE);
    let minute = leading_number(given, MINUTE);
    let room = front_mut(&mut slice, record.room);
    let day = replanner::replan(job, current, minute, record.set, room);
    print_day(rt, job, record.set, &slice, day)?;
    match day {
        Ok(day) => print_kept(rt, current, minute, first_steps(&slice, day.steps)),
        Err(_) => Ok(()),
    }
}

// How many steps are kept: the same in both plans.
fn print_kept(rt: &impl Print, current: &[u8], minute: u32, plan: &[u8]) -> io::Result<()> {
    let kept = begun(plan, minute);
    print!(rt; ", {} kept", kept.len())?;
    unless(rt, begun(current, minute) == kept, ", wrong bytes")
}

// The steps at the front of a plan, at most 32, that start before the minute.
fn begun(plan: &[u8], minute: u32) -> &[[u8; Plan::STEP]] {
    let steps = first_steps(plan, Plan::STEPS)
        .as_chunks::<{ Plan::STEP }>()
        .0;
    let count = steps
        .iter()
        .take_while(|[_, low, high]| u32::from(u16::from_le_bytes([*low, *high])) < minute)
        .count();
    &steps[..count.min(steps.len())]
}
