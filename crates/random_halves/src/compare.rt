// A day in two halves by the call and by the second planner: the first plan of its list for the halfway set, the first
// from what that leaves, and both joined plainly.
use crate::draw::Asked;
use compared::{NoEnd, Outcome, beside_call, unless_differs};
use job::refusal::Refusal;
use lent::FILL;
use second::{NoMakespan, join, list};
use timeline::{Day, Plan};

// The room for a list: 64 plans of 97 bytes.
const ROOM: usize = 6_208;

// What is said of a day in two halves, and whether it has an empty half.
#[derive(Clone, Copy)]
pub struct Halved {
    pub outcome: Outcome,
    pub empty: bool,
}

// Whether the slice holds the two plans, the second so many minutes later, and else what it held before.
fn holds_both(slice: &[u8], first: &[u8], steps: usize, second: &[u8], minutes: u32) -> bool {
    let mut plan = [FILL; Plan::BYTES];
    join::write_later(&mut plan, 0, first, 0);
    join::write_later(&mut plan, steps, second, minutes);
    plan.as_slice() == slice
}

// Both halves are planned. The joined day is that of the plans' bytes, and is accepted, or 34.
fn joined(
    asked: &Asked,
    first: &[u8],
    second: &[u8],
    slice: &[u8],
    day: Result<Day, Refusal>,
) -> Halved {
    let job = asked.job;
    let morning = join::extent_of(job, first);
    let whole = join::joined(job, morning, join::extent_of(job, second));
    if join::too_long(job, whole) {
        let told = Err(NoEnd::Refused(Refusal::JoinedTooLong));
        return Halved {
            outcome: beside_call(told, job, job.goal, slice, day),
            empty: false,
        };
    }
    let minutes = join::minutes_behind(job, morning);
    let same = holds_both(slice, first, morning.steps, second, minutes);
    let told = unless_differs(same, Ok(whole.end));
    Halved {
        outcome: beside_call(told, job, job.goal, slice, day),
        empty: first.is_empty() || second.is_empty(),
    }
}

// Writes the list of each half. A halfway set with a foreign fact is refused by 24, after the job.
fn planned(asked: &Asked, morning: &mut [u8], afternoon: &mut [u8]) -> Result<(), NoEnd> {
    let foreign = facts::foreign(asked.job.facts, asked.halfway);
    match list::shortest_days(asked.job, asked.halfway, morning) {
        Ok(listed) => {
            let end = (listed.end % 65_536) as u16;
            list::days_after(asked.job, list::plan_at(morning, 0), end, afternoon)?;
            Ok(())
        }
        Err(NoMakespan::UseBeyond) => Err(NoEnd::Refused(Refusal::UseBeyond)),
        Err(_) if foreign => Err(NoEnd::Refused(Refusal::ForeignAskedFact)),
        Err(why) => Err(NoEnd::from(why)),
    }
}

pub fn compare(asked: &Asked) -> Halved {
    let mut slice = [FILL; Plan::BYTES];
    let day = halving::halves(asked.job, asked.halfway, &mut slice);
    let mut morning = [0u8; ROOM];
    let mut afternoon = [0u8; ROOM];
    match planned(asked, &mut morning, &mut afternoon) {
        Ok(()) => {
            let first = list::plan_at(&morning, 0);
            joined(asked, first, list::plan_at(&afternoon, 0), &slice, day)
        }
        Err(why) => Halved {
            outcome: beside_call(Err(why), asked.job, asked.job.goal, &slice, day),
            empty: false,
        },
    }
}
