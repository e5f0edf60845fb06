// A job with other numbers beyond its counts is written, read, and written again.
use crate::calls::ROOM;
use crate::filled::filled;
use crate::jobs;
use job::Job;
use lent::front;
use made_jobs::days;
use made_jobs::parts::same_everywhere;
use std::io;

pub fn same(is_same: bool) -> &'static str {
    if is_same { "same" } else { "different" }
}

// What is read is `clean`: the same job, with zeros beyond its counts. A file that is not written has no bytes.
fn trip(rt: &impl Print, job: Job, clean: Job) -> io::Result<()> {
    let mut file = [0u8; ROOM];
    let length = writer::write(job, &mut file).unwrap_or(0);
    let back = reader::read(front(&file, length)).unwrap_or(Job::zero());
    let mut again = [0u8; ROOM];
    let length_again = writer::write(back, &mut again).unwrap_or(0);
    let same_file = front(&file, length) == front(&again, length_again);
    println!(rt;
        "{length} bytes, job {}, file {}",
        same(same_everywhere(back, clean)),
        same(same_file)
    )
}

pub fn named(rt: &impl Print, case: &str, job: Job, clean: Job) -> io::Result<()> {
    output::name(rt, case)?;
    trip(rt, job, clean)
}

// A job of so many pools, stores and actions, with 4,000,000,000 in each place beyond.
fn trip_filled(rt: &impl Print, pools: usize, stores: usize, actions: usize) -> io::Result<()> {
    trip(
        rt,
        filled(pools, stores, actions, 4_000_000_000),
        filled(pools, stores, actions, 0),
    )
}

pub fn largest(rt: &impl Print) -> io::Result<()> {
    output::heading(
        rt,
        "Written, read and written again, with 4,000,000,000 beyond the counts.",
    )?;
    named(rt, "base", jobs::base(), jobs::base())?;
    named(rt, "base against case 6", jobs::base(), days::case_6(3))?;
    output::name(rt, "largest job")?;
    trip_filled(rt, 4, 4, 64)?;
    output::name(rt, "4 pools, 64 actions")?;
    trip_filled(rt, 4, 0, 64)?;
    output::name(rt, "4 stores, 64 actions")?;
    trip_filled(rt, 0, 4, 64)
}

// Every number of pools and stores, with two actions.
pub fn every_count(rt: &impl Print) -> io::Result<()> {
    for pools in 0..5 {
        for stores in 0..5 {
            print!(rt; "  {pools} pools, {stores} stores: ")?;
            trip_filled(rt, pools, stores, 2)?;
        }
    }
    Ok(())
}
