// Jobs under both rules of stores. The reserve of a value under the old rule is ignored.
use crate::beyond::{answers, compare, day};
use crate::jobs;
use crate::refused::alone;
use crate::trips::named;
use job::{Job, StoreRule};
use made_jobs::parts::with_reserve;
use std::io;

// Under the rule of the coming season.
pub fn hourly(job: Job, reserve: u8) -> Job {
    with_reserve(job, StoreRule::PerHour, reserve)
}

// Under the old rule.
pub fn old(job: Job, reserve: u8) -> Job {
    with_reserve(job, StoreRule::PerStep, reserve)
}

pub fn refused(rt: &impl Print) -> io::Result<()> {
    output::heading(rt, "31, a reserve over 50; after 5 and before 6.")?;
    let over = hourly(jobs::base(), 51);
    alone(rt, "31, reserve 51", over)?;
    alone(rt, "31, reserve 255", hourly(jobs::base(), 255))?;
    alone(rt, "5 and 31", jobs::with_head(over, 2, 1_441, 1, 2))?;
    alone(rt, "31 and 6", jobs::with_head(over, 2, 1_440, 1, 4))?;
    alone(
        rt,
        "6, 255 under the old rule",
        jobs::with_head(old(jobs::base(), 255), 2, 1_440, 1, 4),
    )?;
    alone(rt, "26, five hours of 1,000,000", hourly(jobs::base(), 0))
}

pub fn ignored(rt: &impl Print) -> io::Result<()> {
    output::heading(
        rt,
        "A head of 19 bytes keeps the old rule, any reserve in such a job value is ignored.",
    )?;
    let plan = [0u8, 0, 0, 1, 3, 0];
    answers(rt, "old rule, reserve 255", old(day(), 255), &plan)?;
    answers(rt, "hourly, reserve 33", hourly(day(), 33), &plan)?;
    answers(rt, "hourly, reserve 34", hourly(day(), 34), &plan)?;
    compare(rt, "old rule, 255 for 0", day(), old(day(), 255))?;
    compare(rt, "hourly for the old rule", day(), hourly(day(), 0))?;
    compare(
        rt,
        "reserve 34 for 33",
        hourly(day(), 33),
        hourly(day(), 34),
    )
}

pub fn trips(rt: &impl Print) -> io::Result<()> {
    output::heading(
        rt,
        "A job written and read is the same job, its head included.",
    )?;
    named(rt, "old rule, reserve 255", old(day(), 255), day())?;
    named(
        rt,
        "hourly, reserve 33",
        hourly(day(), 33),
        hourly(day(), 33),
    )
}
