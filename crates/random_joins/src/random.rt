// Many triples: how many are joined, how many are refused and where, and how often the two ways differ.
use crate::compare::{Compared, both_ways, empty_changes_nothing};
use crate::draw;
use compared::{one_more, over_seeds};
use job::Job;
use job::refusal::Refusal;
use output::total;
use random_jobs::draw::part;
use std::io;
use timeline::{Day, Plan};

#[derive(Clone, Copy, Default)]
struct Counts {
    days: u64,
    full: u64, // of 32 steps
    late: u64, // ending at the deadline
    refused: u64,
    first_two: u64, // refused where the first two are joined, and not where the last two are
    last_two: u64, // the other way round
    both: u64, // refused where either two are joined
    other: u64, // another refusal
    differences: u64,
}

// Whether a join is refused by 34.
fn is_too_long(day: Result<Day, Refusal>) -> bool {
    day.err() == Some(Refusal::JoinedTooLong)
}

impl Counts {
    // With a joined day more.
    fn add_day(&mut self, job: &Job, day: Day) {
        one_more(&mut self.days);
        if day.steps == Plan::STEPS {
            one_more(&mut self.full);
        }
        if day.end == u32::from(job.deadline) {
            one_more(&mut self.late);
        }
    }

    // With a triple more.
    fn add(&mut self, job: &Job, found: &Compared) {
        match found.left.last {
            Ok(day) => self.add_day(job, day),
            Err(Refusal::JoinedTooLong) => one_more(&mut self.refused),
            Err(_) => one_more(&mut self.other),
        }
        match (
            is_too_long(found.left.first),
            is_too_long(found.right.first),
        ) {
            (true, false) => one_more(&mut self.first_two),
            (false, true) => one_more(&mut self.last_two),
            (true, true) => one_more(&mut self.both),
            (false, false) => {}
        }
    }

    // With the triple of one seed more: the first steps of three plans, joined both ways. A difference is printed with
    // its seed.
    fn count(&mut self, rt: &impl Print, seed: u64) -> io::Result<()> {
        let mut job = draw::job(seed);
        let mut bytes = [0u8; Plan::BYTES];
        let first = draw::plan(&job, part(seed, 1), &mut bytes);
        let mut bytes = [0u8; Plan::BYTES];
        let second = draw::plan(&job, part(seed, 2), &mut bytes);
        let mut bytes = [0u8; Plan::BYTES];
        let third = draw::plan(&job, part(seed, 3), &mut bytes);
        let plans = [first, second, third];
        let whole = both_ways(job, plans);
        let end = whole.left.last.map_or(0, |day| day.end);
        job.deadline = draw::deadline(seed, end);
        let found = both_ways(job, plans);
        if !(whole.same && found.same && empty_changes_nothing(job, first)) {
            one_more(&mut self.differences);
            total(rt, "differs, seed", seed)?;
        }
        self.add(&job, &found);
        Ok(())
    }
}

pub fn joins(rt: &impl Print) -> io::Result<()> {
    output::heading(
        rt,
        "Random plans joined in threes, from the left and from the right: seeds 0 to 5,999.",
    )?;
    let counts = over_seeds(6_000, |counts: &mut Counts, seed| counts.count(rt, seed))?;
    total(rt, "days", counts.days)?;
    total(rt, "of 32 steps", counts.full)?;
    total(rt, "that end at the deadline", counts.late)?;
    total(rt, "refused by 34", counts.refused)?;
    total(rt, "where the first two are joined", counts.first_two)?;
    total(rt, "where the last two are joined", counts.last_two)?;
    total(rt, "both ways", counts.both)?;
    total(rt, "refused by another number", counts.other)?;
    total(rt, "differences", counts.differences)
}
