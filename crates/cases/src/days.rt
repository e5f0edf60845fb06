// Days whose every step is told: two plans joined, a day in two halves, the plan at a place of the list.
use crate::Record;
use crate::calls::{print_day, print_run, unless};
use crate::lending::{ROOM, leading_number, rest};
use job::Job;
use job::refusal::Refusal;
use lent::{FILL, front, front_mut, plan_of};
use std::io;
use timeline::{Day, Plan};

// The bytes of the first plan's length, which stands before it; the second plan stands behind it.
const LENGTH: usize = 1;

// The bytes of a place of the list.
const PLACE: usize = 4;

// The join is lent a slice of so many bytes.
pub fn print_joined(rt: &impl Print, job: Job, record: Record, given: &[u8]) -> io::Result<()> {
    let mut slice = [FILL; ROOM];
    let length = leading_number(given, LENGTH) as usize;
    let behind = rest(given, LENGTH);
    let first = front(behind, length);
    let second = rest(behind, length);
    let day = joining::join(job, first, second, front_mut(&mut slice, record.room));
    print_run(rt, job, day)?;
    let steps = plan_of(&slice, day);
    unless(rt, lent::kept(&slice, steps.len()), ", wrong bytes")?;
    print_steps(rt, &slice, day)
}

// The planner of two halves is lent a slice of so many bytes.
pub fn print_halves(rt: &impl Print, job: Job, record: Record) -> io::Result<()> {
    let mut slice = [FILL; ROOM];
    let day = halving::halves(job, record.set, front_mut(&mut slice, record.room));
    print_day(rt, job, job.goal, &slice, day)?;
    print_steps(rt, &slice, day)
}

// The list is lent a slice of so many bytes.
pub fn print_listed(rt: &impl Print, job: Job, record: Record, given: &[u8]) -> io::Result<()> {
    let mut slice = [FILL; ROOM];
    let place = leading_number(given, PLACE);
    let day = lister::list(job, place, front_mut(&mut slice, record.room));
    print_day(rt, job, job.goal, &slice, day)?;
    print_steps(rt, &slice, day)
}

// The steps of the day at the front of the slice, where there is a day.
fn print_steps(rt: &impl Print, slice: &[u8], day: Result<Day, Refusal>) -> io::Result<()> {
    if day.is_err() {
        return Ok(());
    }
    print!(rt; ":")?;
    let steps = plan_of(slice, day).as_chunks::<{ Plan::STEP }>().0;
    if steps.is_empty() {
        print!(rt; " no steps")?;
    }
    for [action, low, high] in steps {
        print!(rt; " {action}@{}", u16::from_le_bytes([*low, *high]))?;
    }
    Ok(())
}
