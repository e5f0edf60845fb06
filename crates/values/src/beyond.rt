// Other numbers beyond the counts of a job.
use crate::calls::ROOM;
use crate::jobs;
use job::Job;
use job::refusal::Refusal;
use job::same::same;
use made_jobs::parts;
use price::Rates;
use std::io;
use timeline::{Day, Plan};

// The shortest day of this job is action 0 at 0 and 1 at 3.
pub fn day() -> Job {
    let job = parts::with_store(parts::with_pool(parts::empty(3, 10, 0b001, 0b110), 2), 3);
    parts::with_two(
        job,
        jobs::action(3, 0b001, 0b010, 0, 1, 1),
        jobs::action(2, 0b010, 0b100, 0, 1, 1),
    )
}

// The day with these numbers in the places beyond its one pool and one store.
pub fn day_with(availability: u32, amount: u32) -> Job {
    let mut job = day();
    job.pools = [2, availability, availability, availability];
    job.stores = [3, availability, availability, availability];
    job.actions[0].pools = [1, amount, amount, amount];
    job.actions[0].stores = [1, amount, amount, amount];
    job
}

// The day with two pools, and with uses in the places beyond.
fn day_with_two_pools() -> Job {
    let mut job = day();
    job.pools = [2, 2, 0, 0];
    job.actions[1].pools = [1, 2, 9, 9];
    parts::with_counts(job, 2, 1, 2)
}

// The day with an action beyond its two, which 8, 9 and 10 would refuse.
pub fn day_with_action() -> Job {
    let three = parts::with_action(day(), parts::action(0, 8, 8, 8));
    parts::with_counts(three, 1, 1, 2)
}

// What a call that returns a day answers, with the peaks in all four places, 0 beside a refusal.
pub fn show_day(rt: &impl Print, call: &str, day: Result<Day, Refusal>) -> io::Result<()> {
    match day {
        Ok(day) => print!(rt; "{call} ends {}", day.end),
        Err(why) => print!(rt; "{call} refused {}", u8::from(why)),
    }?;
    let [first, second, third, fourth] = day.map_or([0; Job::POOLS], |day| day.peaks);
    print!(rt; ", peaks {first} {second} {third} {fourth}")
}

fn planned(job: Job) -> Result<Day, Refusal> {
    let mut slice = [0u8; ROOM];
    planner::plan(job, &mut slice)
}

// The plan's first step joined with the others.
fn joined(job: Job, plan: &[u8]) -> Result<Day, Refusal> {
    let mut slice = [0u8; ROOM];
    let (first, others) = plan.split_at(Plan::STEP.min(plan.len()));
    joining::join(job, first, others, &mut slice)
}

fn halved(job: Job, halfway: u64) -> Result<Day, Refusal> {
    let mut slice = [0u8; ROOM];
    halving::halves(job, halfway, &mut slice)
}

fn listed(job: Job, place: u32) -> Result<Day, Refusal> {
    let mut slice = [0u8; ROOM];
    lister::list(job, place, &mut slice)
}

// 5 cents for a unit and quarter hour of the pool, 3 for a unit of the store, and rates that 25 refuses beyond.
fn rates() -> Rates {
    Rates {
        pools: [5, 100_001, 100_001, 100_001],
        stores: [3, 100_001, 100_001, 100_001],
        evening: 100,
    }
}

fn priced(rt: &impl Print, answer: Result<u64, Refusal>) -> io::Result<()> {
    match answer {
        Ok(cents) => print!(rt; ", price {cents}"),
        Err(why) => print!(rt; ", price refused {}", u8::from(why)),
    }
}

fn timed(rt: &impl Print, answer: Result<Option<u32>, Refusal>) -> io::Result<()> {
    match answer {
        Ok(Some(minute)) => print!(rt; ", earliest {minute}"),
        Ok(None) => print!(rt; ", unreachable"),
        Err(why) => print!(rt; ", earliest refused {}", u8::from(why)),
    }
}

// The days that the planner hands out: the shortest, the first two of the list, and one by way of fact 1.
fn days(rt: &impl Print, job: Job) -> io::Result<()> {
    show_day(rt, ", plan", planned(job))?;
    show_day(rt, ", list", listed(job, 0))?;
    show_day(rt, ", next", listed(job, 1))?;
    show_day(rt, ", halves", halved(job, 0b010))
}

// What is answered to the job, with this plan for the checker, the join and the price, and the goal for the earliest
// time.
pub fn answers(rt: &impl Print, case: &str, job: Job, plan: &[u8]) -> io::Result<()> {
    output::name(rt, case)?;
    show_day(rt, "check", checker::check(job, plan))?;
    show_day(rt, ", join", joined(job, plan))?;
    days(rt, job)?;
    priced(rt, price::price(job, rates(), plan))?;
    timed(rt, earliest::earliest(job, job.goal))?;
    println!(rt; "")
}

pub fn ignored(rt: &impl Print) -> io::Result<()> {
    output::heading(rt, "What is beyond its counts is ignored.")?;
    let plan = [0u8, 0, 0, 1, 3, 0];
    answers(rt, "zeros beyond", day(), &plan)?;
    answers(rt, "9 of 0 beyond", day_with(0, 9), &plan)?;
    answers(
        rt,
        "4,000,000,000 beyond",
        day_with(4_000_000_000, 4_000_000_000),
        &plan,
    )?;
    answers(rt, "length 0 beyond", day_with_action(), &plan)?;
    answers(
        rt,
        "a step beyond",
        day_with_action(),
        &[0, 0, 0, 1, 3, 0, 2, 5, 0],
    )?;
    answers(rt, "two pools, 9 of 0 beyond", day_with_two_pools(), &plan)
}

// Whether two values hold the same job.
pub fn compare(rt: &impl Print, case: &str, a: Job, b: Job) -> io::Result<()> {
    output::name(rt, case)?;
    println!(rt; "{}", if same(a, b) { "same" } else { "different" })
}

pub fn same_jobs(rt: &impl Print) -> io::Result<()> {
    output::heading(
        rt,
        "Two jobs are the same if their counts and all within them agree.",
    )?;
    compare(rt, "9 of 0 beyond", day(), day_with(0, 9))?;
    compare(
        rt,
        "4,000,000,000 beyond",
        day(),
        day_with(4_000_000_000, 4_000_000_000),
    )?;
    compare(rt, "length 0 beyond", day(), day_with_action())?;
    compare(rt, "a pool of 0 more", day(), parts::with_pool(day(), 0))?;
    compare(
        rt,
        "a pool of 3 for 2",
        day(),
        jobs::with_first_pool(day(), 3),
    )?;
    compare(
        rt,
        "deadline 11 for 10",
        day(),
        jobs::with_head(day(), 3, 11, 0b001, 0b110),
    )?;
    compare(rt, "another use by action 1", day(), other_use())
}

fn other_use() -> Job {
    jobs::with_action(day(), 1, jobs::action(2, 0b010, 0b100, 0, 1, 2))
}
