// Jobs that every call refuses.
use crate::calls::{ROOM, refusals};
use crate::jobs;
use crate::jobs::action;
use job::{Action, Job};
use made_jobs::parts::with_counts;
use std::io;

// Fact 63.
const LAST: u64 = 1 << 63;

// With a slice, a plan and a set that each call would take.
pub fn alone(rt: &impl Print, case: &str, job: Job) -> io::Result<()> {
    refusals(rt, case, job, ROOM, &[], 0)
}

// The base job with other counts.
fn with(
    rt: &impl Print,
    case: &str,
    pools: usize,
    stores: usize,
    actions: usize,
) -> io::Result<()> {
    alone(rt, case, with_counts(jobs::base(), pools, stores, actions))
}

// 3: over four pools, four stores or 64 actions.
pub fn counts(rt: &impl Print) -> io::Result<()> {
    output::heading(
        rt,
        "Every call that is handed a job value tests it first by 3 to 11: each alone.",
    )?;
    with(rt, "3, 5 pools", 5, 1, 2)?;
    with(rt, "3, 5 stores", 1, 5, 2)?;
    with(rt, "3, 65 actions", 1, 1, 65)?;
    with(rt, "3, 2^64 - 1 pools", usize::MAX, 1, 2)?;
    with(rt, "3, 2^64 - 1 stores", 1, usize::MAX, 2)?;
    with(rt, "3, 2^64 - 1 actions", 1, 1, usize::MAX)
}

// The base job with another head.
fn with_head(
    rt: &impl Print,
    case: &str,
    facts: u8,
    deadline: u16,
    start: u64,
    goal: u64,
) -> io::Result<()> {
    alone(
        rt,
        case,
        jobs::with_head(jobs::base(), facts, deadline, start, goal),
    )
}

// 4 to 7.
pub fn head(rt: &impl Print) -> io::Result<()> {
    with_head(rt, "4, 65 facts", 65, 1_440, 1, 2)?;
    with_head(rt, "5, deadline 1,441", 2, 1_441, 1, 2)?;
    with_head(rt, "6, 63 facts, start {63}", 63, 1_440, LAST, 2)?;
    with_head(rt, "6, 63 facts, goal {63}", 63, 1_440, 1, LAST)?;
    alone(
        rt,
        "7, pool of 1,000,001",
        jobs::with_first_pool(jobs::base(), 1_000_001),
    )?;
    alone(
        rt,
        "7, store of 1,000,001",
        jobs::with_first_store(jobs::base(), 1_000_001),
    )
}

// The base job with another action 1.
fn with_last(rt: &impl Print, case: &str, action: Action) -> io::Result<()> {
    alone(rt, case, jobs::with_action(jobs::base(), 1, action))
}

// 8 to 11, then 26.
pub fn actions(rt: &impl Print) -> io::Result<()> {
    with_last(rt, "8, length 0", action(0, 2, 1, 0, 3, 7))?;
    with_last(rt, "9, 2 facts, needs {2}", action(1, 4, 1, 0, 3, 7))?;
    with_last(rt, "9, 2 facts, adds {2}", action(1, 2, 4, 0, 3, 7))?;
    with_last(rt, "9, 2 facts, deletes {2}", action(1, 2, 1, 4, 3, 7))?;
    with_last(rt, "10, adds {0}, deletes {0}", action(1, 2, 1, 1, 3, 7))?;
    with_last(
        rt,
        "11, pool use 1,000,001",
        action(1, 2, 1, 0, 1_000_001, 7),
    )?;
    with_last(
        rt,
        "11, store use 1,000,001",
        action(1, 2, 1, 0, 3, 1_000_001),
    )?;
    alone(
        rt,
        "26, pool of 999,999",
        jobs::with_first_pool(jobs::base(), 999_999),
    )?;
    alone(
        rt,
        "26, store of 999,999",
        jobs::with_first_store(jobs::base(), 999_999),
    )
}

// With no byte to write to, a plan of one byte and a set of every bit: 23, 21, 12 and 24 hold too.
fn beside(rt: &impl Print, case: &str, job: Job) -> io::Result<()> {
    refusals(rt, case, job, 0, &[0], u64::MAX)
}

// One flaw more on each line, always one that stands earlier in the table.
pub fn order(rt: &impl Print) -> io::Result<()> {
    output::heading(
        rt,
        "Every call that is handed a job value tests it first by 3 to 11: many, with 12, 21, 23 and 24.",
    )?;
    let base = jobs::base();
    beside(rt, "none", base)?;
    beside(rt, "11 and on", with_first(base, 1, 1))?;
    beside(rt, "10 and on", with_first(base, 1, 2))?;
    bodies(rt, with_first(base, 4, 2))
}

// The job with an action 0 of these needs and deletes, which uses too much.
fn with_first(job: Job, needs: u64, deletes: u64) -> Job {
    jobs::with_action(job, 0, action(255, needs, 2, deletes, 1_000_001, 7))
}

fn bodies(rt: &impl Print, from_9: Job) -> io::Result<()> {
    let from_8 = jobs::with_action(from_9, 1, action(0, 2, 1, 0, 3, 7));
    let from_7 = jobs::with_first_store(from_8, 1_000_001);
    beside(rt, "9 and on", from_9)?;
    beside(rt, "8 and on", from_8)?;
    beside(rt, "7 and on", from_7)?;
    heads(rt, from_7)
}

// With 65 facts no bit is foreign.
fn heads(rt: &impl Print, from_7: Job) -> io::Result<()> {
    let from_4 = jobs::with_head(from_7, 65, 1_441, 1, 4);
    beside(rt, "6 and on", jobs::with_head(from_7, 2, 1_440, 1, 4))?;
    beside(rt, "5 and on", jobs::with_head(from_7, 2, 1_441, 1, 4))?;
    beside(rt, "4, 5, 7 and on", from_4)?;
    beside(rt, "3 and on", with_counts(from_4, 1, 1, 65))
}
