// The list of all the shortest days of a small job, by trying every plan: the accepted plans that end at the least minute
// and from which no single step can be dropped with the rest still accepted.
use crate::day::{Day, State};
use crate::kept::Kept;
use crate::steps::{Step, Steps, Task};
use crate::walk::{self, List};
use crate::{DECISIONS, NoMakespan};
use job::Job;

// The least end, and how many plans are listed.
#[derive(Clone, Copy)]
pub struct Listed {
    pub end: u32,
    pub plans: u32,
}

// The list of a day from this state at minute 0. It is too large where there are too many plans to try, or more than the
// slice has room for.
fn list_from(before: State, deadline: u16, out: &mut [u8]) -> Result<Listed, NoMakespan> {
    let end = crate::least_horizon(
        &Kept {
            state: before,
            end: 0,
        },
        0,
        deadline,
    )?;
    let room = out.len();
    let mut list = List {
        out,
        plans: 0,
        decisions: DECISIONS,
    };
    let task = Task {
        before,
        horizon: end,
    };
    walk::every(&task, &mut list);
    let plans = list.plans;
    if list.decisions == 0 || room < plans as usize * Steps::BYTES {
        return Err(NoMakespan::TooLarge);
    }
    Ok(Listed { end, plans })
}

// Writes the list of a job's shortest days for the goal, one plan behind the other, and returns their end and number. The
// job passes tests 3 to 11.
pub fn shortest_days(job: Job, goal: u64, out: &mut [u8]) -> Result<Listed, NoMakespan> {
    let day = crate::day_of(&job, goal)?;
    let before = crate::before(&job, &day);
    if before.any_beyond() {
        return Err(NoMakespan::UseBeyond);
    }
    list_from(before, job.deadline, out)
}

// Writes the list of a job's shortest days for its own goal, from minute 0 with the facts and stores that a plan leaves
// at its end. The plan is accepted for some goal and ends at this minute. 26 is not asked of what is left.
pub fn days_after(job: Job, plan: &[u8], end: u16, out: &mut [u8]) -> Result<Listed, NoMakespan> {
    let day = crate::day_of(&job, job.goal)?;
    let before = crate::before(&job, &day);
    let left = Kept::at_minute(before, plan, end).state;
    let afternoon = State {
        facts: left.facts,
        stores: left.stores,
        ..before
    };
    list_from(afternoon, job.deadline, out)
}

// The plan at a place of a list that was written to this slice. It has no steps where the place is behind the slice.
pub fn plan_at(list: &[u8], place: u32) -> &[u8] {
    let from = place as usize * Steps::BYTES;
    match list.get(from..from + Steps::BYTES) {
        Some(plan) => {
            let steps = usize::from(plan[0]).min(Day::STEPS);
            &plan[1..1 + steps * Step::BYTES]
        }
        None => &[],
    }
}
