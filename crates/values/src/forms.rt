// Jobs with and without handovers. What a value holds beyond its form is ignored.
use crate::beyond::{answers, compare, day};
use crate::jobs;
use crate::refused::alone;
use crate::trips::named;
use job::{Form, Job};
use made_jobs::parts::with_handovers;
use std::io;

// In the places beyond the one pool stands 255.
pub fn five(job: Job, handover: u8) -> Job {
    with_handovers(job, Form::Five, [handover, 255, 255, 255])
}

// In every place stands 255.
pub fn four(job: Job) -> Job {
    with_handovers(job, Form::Four, [255; Job::POOLS])
}

// Both actions use the one unit of the pool.
fn short_day() -> Job {
    jobs::with_first_pool(day(), 1)
}

pub fn refused(rt: &impl Print) -> io::Result<()> {
    output::heading(rt, "27, a handover over 30; after 7 and before 8.")?;
    let over = five(jobs::base(), 31);
    let idle = jobs::action(0, 2, 1, 0, 3, 7);
    alone(rt, "27, handover 31", over)?;
    alone(rt, "7 and 27", jobs::with_first_pool(over, 1_000_001))?;
    alone(rt, "27 and 8", jobs::with_action(over, 1, idle))?;
    alone(
        rt,
        "8, 255 beyond the form",
        jobs::with_action(four(jobs::base()), 1, idle),
    )
}

pub fn ignored(rt: &impl Print) -> io::Result<()> {
    output::heading(
        rt,
        "What a job value holds beyond its form is ignored, in refusals and when jobs are compared too.",
    )?;
    let plan = [0u8, 0, 0, 1, 3, 0];
    answers(rt, "four entries, zeros beyond", short_day(), &plan)?;
    answers(rt, "four entries, 255 beyond", four(short_day()), &plan)?;
    answers(rt, "five entries, handover 0", five(short_day(), 0), &plan)?;
    answers(rt, "five entries, handover 2", five(short_day(), 2), &plan)?;
    compare(rt, "four entries, 255 beyond", day(), four(day()))?;
    compare(
        rt,
        "five entries, 255 beyond",
        five(day(), 2),
        with_handovers(day(), Form::Five, [2, 0, 0, 0]),
    )?;
    compare(rt, "handover 3 for 2", five(day(), 2), five(day(), 3))?;
    compare(
        rt,
        "five entries for four",
        day(),
        with_handovers(day(), Form::Five, [0; Job::POOLS]),
    )
}

pub fn trips(rt: &impl Print) -> io::Result<()> {
    output::heading(
        rt,
        "A job written and read is the same job, its form included.",
    )?;
    named(
        rt,
        "four entries, 255 beyond",
        four(jobs::base()),
        jobs::base(),
    )?;
    named(
        rt,
        "five entries, 255 beyond",
        five(jobs::base(), 30),
        with_handovers(jobs::base(), Form::Five, [30, 0, 0, 0]),
    )
}
