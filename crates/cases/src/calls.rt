// The calls, and what is printed of their answers.
use crate::call::Call;
use crate::lending::ROOM;
use crate::{Record, days, lending, peaks, pools, rates, replans, true_days};
use job::Job;
use job::refusal::Refusal;
use lent::{FILL, front, front_mut};
use std::io;
use timeline::Day;

pub fn refused(rt: &impl Print, why: Refusal) -> io::Result<()> {
    print!(rt; "refused {}", u8::from(why))
}

// Says what is wrong, where something is.
pub fn unless(rt: &impl Print, holds: bool, wrong: &str) -> io::Result<()> {
    if holds { Ok(()) } else { print!(rt; "{wrong}") }
}

// The answer to a record. Each call begins with the reader.
pub fn answer(rt: &impl Print, record: Record, file: &[u8], plan: &[u8]) -> io::Result<()> {
    match reader::read(file) {
        Ok(job) => match Call::try_from(record.letter) {
            Ok(call) => answer_for(rt, job, call, record, file, plan),
            Err(why) => print!(rt; "{why}"),
        },
        Err(why) => refused(rt, why),
    }
}

// The answer to a record whose file holds this job.
fn answer_for(
    rt: &impl Print,
    job: Job,
    call: Call,
    record: Record,
    file: &[u8],
    plan: &[u8],
) -> io::Result<()> {
    match call {
        Call::Read => print!(rt; "accepted"),
        Call::Rewrite => print_rewritten(rt, job, file, record.room),
        Call::Bytes => print_bytes(rt, job, record.set as usize, record.room),
        Call::Pool | Call::PlanPooled => pools::print(rt, job, call, record, plan),
        Call::Plan => print_plan(rt, job, record.room),
        Call::Replan => replans::print(rt, job, record, plan),
        Call::Join => days::print_joined(rt, job, record, plan),
        Call::Halves => days::print_halves(rt, job, record),
        Call::List => days::print_listed(rt, job, record, plan),
        Call::TrueDay => true_days::print(rt, job, plan),
        Call::Check => print_checked(rt, job, checker::check(job, plan)),
        Call::CheckFor => print_checked(rt, job, checker::check_for(job, record.set, plan)),
        Call::Price => print_price(rt, priced(job, plan)),
        Call::Earliest => print_time(rt, earliest::earliest(job, record.set)),
    }
}

// The job is written into a slice of so many bytes.
fn print_rewritten(rt: &impl Print, job: Job, file: &[u8], length: usize) -> io::Result<()> {
    let mut slice = [FILL; ROOM];
    match writer::write(job, front_mut(&mut slice, length)) {
        Ok(size) => {
            let same = front(&slice, size) == file;
            let kept = lent::kept(&slice, size);
            print!(rt;
                "{size} bytes, file {}, rest {}",
                if same { "same" } else { "different" },
                if kept { "kept" } else { "changed" }
            )
        }
        Err(why) => {
            let kept = lent::kept(&slice, 0);
            refused(rt, why)?;
            print!(rt; ", slice {}", if kept { "kept" } else { "changed" })
        }
    }
}

// The bytes that the writer makes, from one place up to another, in hexadecimal digits.
fn print_bytes(rt: &impl Print, job: Job, from: usize, to: usize) -> io::Result<()> {
    let mut slice = [FILL; ROOM];
    let _ = writer::write(job, &mut slice);
    for (at, byte) in lending::rest(front(&slice, to), from).iter().enumerate() {
        if 0 < at {
            print!(rt; " ")?;
        }
        print!(rt; "{byte:02x}")?;
    }
    Ok(())
}

fn print_checked(rt: &impl Print, job: Job, day: Result<Day, Refusal>) -> io::Result<()> {
    match day {
        Ok(day) => {
            print!(rt; "ends {}", day.end)?;
            peaks::print(rt, job, day)
        }
        Err(why) => refused(rt, why),
    }
}

// The price of a plan, before which its rates stand.
fn priced(job: Job, given: &[u8]) -> Result<u64, Refusal> {
    price::price(
        job,
        rates::rates_in(given),
        lending::rest(given, rates::BYTES),
    )
}

fn print_price(rt: &impl Print, price: Result<u64, Refusal>) -> io::Result<()> {
    match price {
        Ok(cents) => print!(rt; "{cents} cents"),
        Err(why) => refused(rt, why),
    }
}

fn print_time(rt: &impl Print, time: Result<Option<u32>, Refusal>) -> io::Result<()> {
    match time {
        Ok(Some(minute)) => print!(rt; "{minute}"),
        Ok(None) => print!(rt; "unreachable"),
        Err(why) => refused(rt, why),
    }
}

// The planner is lent a slice of so many bytes.
pub fn print_plan(rt: &impl Print, job: Job, length: usize) -> io::Result<()> {
    let mut slice = [FILL; ROOM];
    let day = planner::plan(job, front_mut(&mut slice, length));
    print_day(rt, job, job.goal, &slice, day)
}

// What is handed out for the goal, or the refusal, after which the slice is as before.
pub fn print_day(
    rt: &impl Print,
    job: Job,
    goal: u64,
    slice: &[u8],
    day: Result<Day, Refusal>,
) -> io::Result<()> {
    match day {
        Ok(day) => print_handed_out(rt, job, goal, slice, day),
        Err(why) => {
            refused(rt, why)?;
            unless(rt, lent::kept(slice, 0), ", wrong bytes")
        }
    }
}

// The end, the number of steps and the peaks of a day.
fn print_told(rt: &impl Print, job: Job, day: Day) -> io::Result<()> {
    print!(rt; "ends {}, {} steps", day.end, day.steps)?;
    peaks::print(rt, job, day)
}

// A day of which nothing is handed out.
pub fn print_run(rt: &impl Print, job: Job, day: Result<Day, Refusal>) -> io::Result<()> {
    match day {
        Ok(day) => print_told(rt, job, day),
        Err(why) => refused(rt, why),
    }
}

fn print_handed_out(
    rt: &impl Print,
    job: Job,
    goal: u64,
    slice: &[u8],
    day: Day,
) -> io::Result<()> {
    print_told(rt, job, day)?;
    let right = lent::handed_out(job, goal, slice, Ok(day), day.end);
    unless(rt, right, ", wrong bytes")
}
