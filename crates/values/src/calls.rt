// What the calls answer to a job value.
use job::refusal::Refusal;
use job::{Job, StoreRule};
use made_jobs::parts;
use price::Rates;
use std::io;
use timeline::Day;

// The bytes of the longest slice that is lent.
pub const ROOM: usize = 4_200;

// The number of a refusal, 0 for none.
fn number<T: Copy>(answer: Result<T, Refusal>) -> u8 {
    answer.err().map_or(0, u8::from)
}

// Rates that 25 refuses.
fn rates_over() -> Rates {
    Rates {
        pools: [100_001u32; Job::POOLS],
        stores: [100_001u32; Job::STORES],
        evening: 101,
    }
}

// The planner and the list, lent the same slice.
fn lend_planners(rt: &impl Print, job: Job, slice: &mut [u8]) -> io::Result<()> {
    show_day(rt, ", plan ", planner::plan(job, slice))?;
    show_day(rt, ", list ", lister::list(job, u32::MAX, slice))
}

// The writer too.
fn lend_alone(rt: &impl Print, job: Job, slice: &mut [u8]) -> io::Result<()> {
    show(rt, "write ", writer::write(job, slice))?;
    lend_planners(rt, job, slice)
}

// The join of this plan with itself, and the halves by way of this set, lent the same slice.
fn lend_halves(
    rt: &impl Print,
    job: Job,
    slice: &mut [u8],
    plan: &[u8],
    set: u64,
) -> io::Result<()> {
    show_day(rt, ", join ", joining::join(job, plan, plan, slice))?;
    show_day(rt, ", halves ", halving::halves(job, set, slice))
}

// All of these calls, lent the same slice.
fn lend(rt: &impl Print, job: Job, slice: &mut [u8], plan: &[u8], set: u64) -> io::Result<()> {
    lend_alone(rt, job, slice)?;
    lend_halves(rt, job, slice, plan, set)
}

// The same with the first bytes of a slice, so many, and whether the slice is as before.
fn lend_filled(rt: &impl Print, job: Job, length: usize, plan: &[u8], set: u64) -> io::Result<()> {
    let mut slice = [lent::FILL; ROOM];
    lend(rt, job, lent::front_mut(&mut slice, length), plan, set)?;
    let kept = lent::kept(&slice, 0);
    print!(rt; ", slice {}", if kept { "kept" } else { "changed" })
}

fn show<T: Copy>(rt: &impl Print, call: &str, answer: Result<T, Refusal>) -> io::Result<()> {
    print!(rt; "{call}{}", number(answer))
}

// The refusal of a day, or 0 and whether a pool is in use.
fn show_day(rt: &impl Print, call: &str, day: Result<Day, Refusal>) -> io::Result<()> {
    show(rt, call, day)?;
    let peaks = day.map_or([0; Job::POOLS], |day| day.peaks);
    if peaks != [0; Job::POOLS] {
        print!(rt; " with peaks")?;
    }
    Ok(())
}

// A job of 64 facts under the rule of the coming season: pooled with another, 32 and 33 hold.
fn partner() -> Job {
    parts::with_reserve(parts::empty(64, 0, 0, 0), StoreRule::PerHour, 50)
}

// The refusal of a pooling, or 0 and a job.
fn show_pooled(rt: &impl Print, call: &str, answer: Result<Job, Refusal>) -> io::Result<()> {
    show(rt, call, answer)?;
    if answer.is_ok() {
        print!(rt; " with a job")?;
    }
    Ok(())
}

// The refusal of each call: with a slice of so many bytes, this plan and this set.
pub fn refusals(
    rt: &impl Print,
    case: &str,
    job: Job,
    length: usize,
    plan: &[u8],
    set: u64,
) -> io::Result<()> {
    output::name(rt, case)?;
    lend_filled(rt, job, length, plan, set)?;
    show_day(rt, ", check ", checker::check(job, plan))?;
    show_day(rt, ", check for ", checker::check_for(job, set, plan))?;
    show(rt, ", price ", price::price(job, rates_over(), plan))?;
    show_day(rt, ", true day ", true_day::true_day(job, plan, &[0]))?;
    show(rt, ", earliest ", earliest::earliest(job, set))?;
    show_pooled(rt, ", pool first ", pooling::pool(job, partner()))?;
    show_pooled(rt, ", pool second ", pooling::pool(partner(), job))?;
    println!(rt; "")
}
