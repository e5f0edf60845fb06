// Begun days: "Replanning a day already begun" of document 02, on small jobs. A plan is its bytes: for each step its
// action (1 byte) and its start (2 bytes).
use crate::show::{Makespan, answer};
use job::Job;
use made_jobs::{days, parts};
use second::NoMakespan::{NoPlan, UseBeyond};
use second::shortest_from;
use std::io;

// What is told of the day of this plan, begun up to the minute.
fn begun(
    rt: &impl Print,
    case: &str,
    job: Job,
    plan: &[u8],
    minute: u16,
    goal: u64,
    expected: Makespan,
) -> io::Result<()> {
    answer(rt, case, shortest_from(job, plan, minute, goal), expected)
}

// Action 0 takes fact 0 away and adds fact 1, action 1 adds fact 0 again. At minute 0 nothing is kept, at 1 and 2 action
// 0 is, which at 1 still runs, and from 3 on both are.
fn kept_steps(rt: &impl Print) -> io::Result<()> {
    output::heading(
        rt,
        "Begun: case 6 with deadline 6, action 0 at 0 and action 1 at 2.",
    )?;
    let job = days::case_6(6);
    let plan = [0u8, 0, 0, 1, 2, 0];
    begun(rt, "minute 0, goal {0}", job, &plan, 0, 0b01, Ok(0))?;
    begun(rt, "minute 0, goal {1}", job, &plan, 0, 0b10, Ok(2))?;
    begun(rt, "minute 1, goal {1}", job, &plan, 1, 0b10, Ok(2))?;
    begun(rt, "minute 1, goal {0}", job, &plan, 1, 0b01, Ok(3))?;
    begun(rt, "minute 2, goal {1}", job, &plan, 2, 0b10, Ok(2))?;
    begun(rt, "minute 3, goal {1}", job, &plan, 3, 0b10, Ok(3))?;
    begun(rt, "minute 6, goal {1}", job, &plan, 6, 0b10, Ok(3))?;
    begun(rt, "minute 7, goal {1}", job, &plan, 7, 0b10, Ok(3))
}

// Action 1 gives fact 0 back, where a minute is left for it.
fn deadlines(rt: &impl Print) -> io::Result<()> {
    output::heading(rt, "Begun: case 6, action 0 at 0, goal {0}.")?;
    let plan = [0u8, 0, 0];
    begun(
        rt,
        "deadline 2, minute 1",
        days::case_6(2),
        &plan,
        1,
        0b01,
        Err(NoPlan),
    )?;
    begun(
        rt,
        "deadline 4, minute 3",
        days::case_6(4),
        &plan,
        3,
        0b01,
        Ok(4),
    )?;
    begun(
        rt,
        "deadline 4, minute 4",
        days::case_6(4),
        &plan,
        4,
        0b01,
        Err(NoPlan),
    )?;
    begun(
        rt,
        "deadline 4, minute 5",
        days::case_6(4),
        &plan,
        5,
        0b01,
        Err(NoPlan),
    )
}

// Action 0 runs until minute 2. In case 4 it holds 1 of the pool until then, in case 7 it has used 2 of the store.
fn resources(rt: &impl Print) -> io::Result<()> {
    output::heading(rt, "Begun: cases 4 and 7, action 0 at 0, minute 1.")?;
    let plan = [0u8, 0, 0];
    let beyond = shortest_from(days::case_4(4, 0), &plan, 1, 0b11);
    answer(rt, "pool of 0", beyond, Err(UseBeyond))?;
    begun(rt, "pool of 1", days::case_4(4, 1), &plan, 1, 0b11, Ok(4))?;
    begun(rt, "pool of 2", days::case_4(4, 2), &plan, 1, 0b11, Ok(3))?;
    begun(rt, "store of 4", days::case_7(4), &plan, 1, 0b11, Ok(3))?;
    begun(
        rt,
        "store of 3",
        days::case_7(3),
        &plan,
        1,
        0b11,
        Err(NoPlan),
    )?;
    begun(
        rt,
        "store of 3, goal {0}",
        days::case_7(3),
        &plan,
        1,
        0b01,
        Ok(2),
    )
}

// Action 1 needs fact 0, which action 0 deletes. So it cannot start while action 0 runs, and after that fact 0 is gone.
fn clashes(rt: &impl Print) -> io::Result<()> {
    output::heading(
        rt,
        "Begun: action 0 at 0 until minute 3, and it clashes with action 1.",
    )?;
    let plan = [0u8, 0, 0];
    let first = parts::action(3, 0, 0b010, 0b001);
    let second = parts::action(1, 0b001, 0b100, 0);
    let job = parts::with_two(parts::empty(3, 9, 0b001, 0), first, second);
    begun(rt, "minute 0, goal {2}", job, &plan, 0, 0b100, Ok(1))?;
    begun(rt, "minute 1, goal {2}", job, &plan, 1, 0b100, Err(NoPlan))?;
    begun(rt, "minute 1, goal {1}", job, &plan, 1, 0b010, Ok(3))
}

// The bytes of 32 steps of action 0, one at each minute from 0 on.
fn one_each_minute() -> [u8; 96] {
    let mut plan = [0u8; 96];
    for (minute, step) in (0u8..).zip(plan.as_chunks_mut::<3>().0) {
        step[1] = minute;
    }
    plan
}

// Each action takes a minute. Action 1 adds fact 1, action 2 needs it and adds fact 2.
fn steps(rt: &impl Print) -> io::Result<()> {
    output::heading(rt, "Begun: at most 32 steps, action 0 at each minute.")?;
    let plan = one_each_minute();
    let job = parts::with_action(parts::empty(3, 34, 0, 0), parts::action(1, 0, 0b001, 0));
    let second = parts::action(1, 0, 0b010, 0);
    let third = parts::action(1, 0b010, 0b100, 0);
    let job = parts::with_two(job, second, third);
    begun(rt, "30 kept and two more", job, &plan, 30, 0b100, Ok(32))?;
    begun(rt, "31 kept and one more", job, &plan, 31, 0b010, Ok(32))?;
    begun(
        rt,
        "31 kept and two more",
        job,
        &plan,
        31,
        0b100,
        Err(NoPlan),
    )
}

pub fn days(rt: &impl Print) -> io::Result<()> {
    kept_steps(rt)?;
    deadlines(rt)?;
    resources(rt)?;
    clashes(rt)?;
    steps(rt)
}
