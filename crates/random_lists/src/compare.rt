// Both lists of one job, at every place and at the one behind the last. Each plan is also checked, and so are its peaks
// and the bytes that the lister leaves.
use compared::{NoEnd, Outcome, unless_differs};
use job::Job;
use job::refusal::Refusal;
use lent::plan_of;
use second::list::Listed;
use second::{NoMakespan, list};
use timeline::Plan;

// The most plans of a list that is compared: 128 places of 97 bytes.
const ROOM: usize = 12_416;

// What is said of a job, how many plans are listed, and how many of them begin the next one.
#[derive(Clone, Copy)]
pub struct Compared {
    pub outcome: Outcome,
    pub plans: u32,
    pub begin_next: u32,
}

// Whether the lister's plan at the place is this one, ending at this minute.
fn same_plan(job: Job, place: u32, plan: &[u8], end: u32) -> bool {
    let mut slice = [lent::FILL; Plan::BYTES];
    let day = lister::list(job, place, &mut slice);
    lent::handed_out(job, job.goal, &slice, day, end) && plan_of(&slice, day) == plan
}

// Whether the lister refuses the place so.
fn same_refusal(job: Job, place: u32, why: Refusal) -> bool {
    let mut slice = [lent::FILL; Plan::BYTES];
    let day = lister::list(job, place, &mut slice);
    lent::refused(&slice, day, why)
}

// Whether the lister has the same plans at the list's places, and 28 behind them.
fn same_plans(job: Job, list: &[u8], listed: Listed) -> bool {
    (0..listed.plans).all(|place| same_plan(job, place, list::plan_at(list, place), listed.end))
        && same_refusal(job, listed.plans, Refusal::ListEnded)
}

// Whether the first plan begins the second, which is another.
fn begins(first: &[u8], second: &[u8]) -> bool {
    first.len() < second.len() && second.starts_with(first)
}

// How many plans of the list begin the one behind them. Behind the last there are no steps.
fn begin_next(list: &[u8], plans: u32) -> u32 {
    let mut sum = 0u32;
    for place in 0..plans {
        if begins(list::plan_at(list, place), list::plan_at(list, place + 1)) {
            sum = sum.wrapping_add(1);
        }
    }
    sum
}

fn outcome(job: Job, list: &[u8], listed: Result<Listed, NoMakespan>) -> Outcome {
    match listed.map_err(NoEnd::from) {
        Ok(listed) => unless_differs(same_plans(job, list, listed), Ok(listed.end)),
        Err(NoEnd::Refused(why)) => {
            unless_differs(same_refusal(job, 0, why), Err(NoEnd::Refused(why)))
        }
        Err(why) => Err(why),
    }
}

pub fn compare(job: Job) -> Compared {
    let mut list = [0u8; ROOM];
    let listed = list::shortest_days(job, job.goal, &mut list);
    let plans = match listed {
        Ok(listed) => listed.plans,
        Err(_) => 0,
    };
    Compared {
        outcome: outcome(job, &list, listed),
        plans,
        begin_next: begin_next(&list, plans),
    }
}
