// Jobs with and without shortest lengths. What a value holds beyond its form is ignored.
use crate::beyond::{answers, compare, day, show_day};
use crate::jobs;
use crate::refused::alone;
use crate::trips::named;
use job::{Form, Job};
use made_jobs::parts::with_shortest;
use std::io;

// The shortest lengths of two actions, and this in the places beyond.
fn of_two(first: u8, second: u8, beyond: u8) -> [u8; Job::ACTIONS] {
    let mut lengths = [beyond; Job::ACTIONS];
    lengths[0] = first;
    lengths[1] = second;
    lengths
}

pub fn six(job: Job, first: u8, second: u8) -> Job {
    with_shortest(job, Form::Six, of_two(first, second, 200))
}

// The same beyond a form without shortest lengths.
pub fn five(job: Job, first: u8, second: u8) -> Job {
    with_shortest(job, Form::Five, of_two(first, second, 200))
}

pub fn refused(rt: &impl Print) -> io::Result<()> {
    output::heading(
        rt,
        "29, a shortest length 0 or over the longest; after 8 and before 9.",
    )?;
    let over = six(jobs::base(), 255, 2);
    let idle = jobs::action(0, 2, 1, 0, 3, 7);
    let foreign = jobs::action(1, 4, 1, 0, 3, 7);
    alone(rt, "29, shortest 0", six(jobs::base(), 0, 1))?;
    alone(rt, "29, shortest 2 of 1", over)?;
    alone(rt, "8 and 29", jobs::with_action(over, 1, idle))?;
    alone(rt, "29 and 9", jobs::with_action(over, 1, foreign))?;
    alone(
        rt,
        "9, 0 beyond the form",
        jobs::with_action(five(jobs::base(), 0, 0), 1, foreign),
    )
}

pub fn ignored(rt: &impl Print) -> io::Result<()> {
    output::heading(
        rt,
        "Older forms have shortest equal to longest, whatever the value holds. Plans are made with the longest lengths.",
    )?;
    let plan = [0u8, 0, 0, 1, 3, 0];
    answers(rt, "five entries, 0 beyond", five(day(), 0, 0), &plan)?;
    answers(rt, "six entries, shortest 1 1", six(day(), 1, 1), &plan)?;
    compare(
        rt,
        "five entries, 0 beyond",
        five(day(), 3, 2),
        five(day(), 0, 0),
    )?;
    compare(
        rt,
        "six entries, 0 beyond the actions",
        six(day(), 1, 1),
        with_zeros(1, 1),
    )?;
    compare(rt, "shortest 2 for 1", six(day(), 1, 1), six(day(), 1, 2))?;
    compare(
        rt,
        "six entries for five",
        five(day(), 3, 2),
        six(day(), 3, 2),
    )
}

// The day with these shortest lengths, and 0 in the places beyond.
fn with_zeros(first: u8, second: u8) -> Job {
    with_shortest(day(), Form::Six, of_two(first, second, 0))
}

pub fn trips(rt: &impl Print) -> io::Result<()> {
    output::heading(
        rt,
        "A job written and read is the same job, its shortest lengths included.",
    )?;
    named(
        rt,
        "five entries, 200 beyond",
        five(day(), 200, 200),
        with_shortest(day(), Form::Five, [0; Job::ACTIONS]),
    )?;
    named(
        rt,
        "six entries, 200 beyond",
        six(day(), 3, 1),
        with_zeros(3, 1),
    )
}

// What the day of action 0 at 0 and action 1 at 3 was, with these lengths.
fn run(rt: &impl Print, case: &str, job: Job, first: u8, second: u8) -> io::Result<()> {
    output::name(rt, case)?;
    show_day(
        rt,
        "true day",
        true_day::true_day(job, &[0, 0, 0, 1, 3, 0], &[first, second]),
    )?;
    println!(rt; "")
}

pub fn true_days(rt: &impl Print) -> io::Result<()> {
    output::heading(
        rt,
        "True lengths outside their range are 30; older forms have one length.",
    )?;
    run(rt, "six entries, 1 and 1", six(day(), 1, 1), 1, 1)?;
    run(rt, "six entries, 3 and 2", six(day(), 1, 1), 3, 2)?;
    run(rt, "30, 3 and 3", six(day(), 1, 1), 3, 3)?;
    run(rt, "30, 1 of 2 to 3", six(day(), 2, 1), 1, 1)?;
    run(rt, "five entries, 3 and 2", five(day(), 1, 1), 3, 2)?;
    run(rt, "30, five entries, 2 and 2", five(day(), 1, 1), 2, 2)
}
