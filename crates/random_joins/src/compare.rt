// Three plans joined both ways: the first with the second and then the third, and the first with what the other two give.
use job::Job;
use job::refusal::Refusal;
use lent::{FILL, first_steps, kept, plan_of};
use timeline::{Day, Plan};

// More bytes than a plan has.
const SLICE: usize = 100;

// The answers of the two joins, one after the other. Where the first is refused the last has its refusal.
#[derive(Clone, Copy)]
pub struct Way {
    pub first: Result<Day, Refusal>,
    pub last: Result<Day, Refusal>,
}

// What came of both ways, and whether the two are the same.
#[derive(Clone, Copy)]
pub struct Compared {
    pub left: Way,
    pub right: Way,
    pub same: bool,
}

fn from_the_left(job: Job, [a, b, c]: [&[u8]; 3], out: &mut [u8]) -> Way {
    let mut both = [FILL; Plan::BYTES];
    let first = joining::join(job, a, b, &mut both);
    Way {
        first,
        last: first.and_then(|day| joining::join(job, first_steps(&both, day.steps), c, out)),
    }
}

fn from_the_right(job: Job, [a, b, c]: [&[u8]; 3], out: &mut [u8]) -> Way {
    let mut both = [FILL; Plan::BYTES];
    let first = joining::join(job, b, c, &mut both);
    Way {
        first,
        last: first.and_then(|day| joining::join(job, a, first_steps(&both, day.steps), out)),
    }
}

// Whether two answers are the same.
fn same_day(a: Result<Day, Refusal>, b: Result<Day, Refusal>) -> bool {
    match (a, b) {
        (Ok(a), Ok(b)) => a.end == b.end && a.steps == b.steps && a.peaks == b.peaks,
        _ => a.err() == b.err(),
    }
}

// Whether the bytes behind the plan of an answer are as before; after a refusal, all of them.
fn rest_kept(slice: &[u8], day: Result<Day, Refusal>) -> bool {
    kept(slice, plan_of(slice, day).len())
}

// Both ways, in slices with a few bytes more than a plan has.
pub fn both_ways(job: Job, plans: [&[u8]; 3]) -> Compared {
    let mut slice = [FILL; SLICE];
    let left = from_the_left(job, plans, &mut slice);
    let mut other = [FILL; SLICE];
    let right = from_the_right(job, plans, &mut other);
    Compared {
        left,
        right,
        same: slice == other && same_day(left.last, right.last) && rest_kept(&slice, left.last),
    }
}

// Whether a plan joined with no steps before it and behind it is itself.
pub fn empty_changes_nothing(job: Job, plan: &[u8]) -> bool {
    let mut slice = [FILL; SLICE];
    let before = joining::join(job, &[], plan, &mut slice);
    let mut other = [FILL; SLICE];
    let behind = joining::join(job, plan, &[], &mut other);
    slice == other
        && same_day(before, behind)
        && plan_of(&slice, before) == plan
        && rest_kept(&slice, before)
}
