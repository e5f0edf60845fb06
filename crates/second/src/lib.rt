// A plain second planner, for comparison in tests: the least end of the accepted plans of a small job, by trying every
// plan forward from minute 0, or from the minute to which a begun day has come; the list of all the shortest days; and two
// plans joined. It shares no code with the planner, the lister and the join, only the job's types, and knows no earliest
// times and no normal form.
#![tactic(auto)]

mod day; // the rules, minute by minute
pub mod join; // two plans joined
mod kept; // the steps that a begun day keeps
pub mod list; // the list of all the shortest days
mod resources; // what a job has of its pools and stores, and what a step takes
mod steps; // the steps of a plan
mod walk; // the walk over all plans

ghost use Rattle.std.specs.Prelude.{◌≤◌};

use day::{Day, Run, State};
use job::{Action, Counts, Job};
use kept::Kept;
use std::fmt;

// The latest deadline, since the search calls itself once for each action and minute.
const DEADLINE: u16 = 60;

// The most decisions whether to start an action, over all horizons.
const DECISIONS: u32 = 1_000_000;

// Why the least end of the accepted plans is not told.
#[derive(Clone, Copy, Debug, PartialEq, Eq)]
pub enum NoMakespan {
    NoPlan,
    UseBeyond, // an action uses more of a pool or store than there is (26)
    TooLarge, // there is too much to try
}

impl fmt::Display for NoMakespan {
    fn fmt<W: fmt::Write>(&self, f: &mut fmt::Formatter<W>) -> fmt::Result {
        f.write_str(match self {
            NoMakespan::NoPlan => "no plan",
            NoMakespan::UseBeyond => "refused by 26",
            NoMakespan::TooLarge => "too large",
        })
    }
}

// Whether the goal can hold `left` minutes later, with all steps stopped by then. Of the actions, the first `undecided`
// may still start in this minute.
fn search(state: State, left: u32, undecided: usize, decisions: &mut u32) -> bool
    requires { undecided ≤ 8 }
{
    if undecided == 0 {
        if left == 0 {
            return state.goal_holds();
        }
        return search(state.tick(), left - 1, state.day.counts.actions, decisions);
    }
    if *decisions == 0 {
        return false;
    }
    *decisions -= 1;
    let number = undecided - 1;
    if state.may_start(number, left) && search(state.started(number), left, number, decisions) {
        return true;
    }
    search(state, left, number, decisions)
}

// The least horizon at which the search finds a plan of the begun day. A plan that ends before a horizon was found at an
// earlier one, since the kept steps stop by the first.
fn least_horizon(kept: &Kept, minute: u16, deadline: u16) -> Result<u32, NoMakespan> {
    let state = kept.state;
    let first = u32::from(minute);
    let mut decisions = DECISIONS;
    for horizon in kept.end.max(first)..u32::from(deadline) + 1 {
        if search(
            state,
            horizon - first,
            state.day.counts.actions,
            &mut decisions,
        ) {
            return Ok(horizon);
        }
    }
    Err(if decisions == 0 {
        NoMakespan::TooLarge
    } else {
        NoMakespan::NoPlan
    })
}

// What is the same in every minute of the job's day, with this goal. A job with over 8 actions or a deadline over 60 is
// too large.
fn day_of(job: &Job, goal: u64) -> Result<Day, NoMakespan> {
    if Day::ACTIONS < job.counts.actions || DEADLINE < job.deadline {
        return Err(NoMakespan::TooLarge);
    }
    let mut actions = [Action::unused(); Day::ACTIONS];
    for (to, action) in actions.iter_mut().zip(&job.actions) {
        *to = resources::charged(job, *action);
    }
    Ok(Day {
        goal,
        counts: job.counts,
        pools: job.pools,
        handovers: resources::handovers(job),
        actions,
    })
}

// The state of a job's day before any step.
fn before<'d>(job: &Job, day: &'d Day) -> State<'d> {
    State {
        day,
        facts: job.start,
        runs: [Run { left: 0, ended: 0 }; Day::ACTIONS],
        stores: resources::allowed(job),
        steps: Day::STEPS as u32,
    }
}

// The least end of the plans that are accepted for the goal and whose steps before the minute are those of the given
// plan. The job passes tests 3 to 11, the plan 12 to 19. A job with over 8 actions, a deadline over 60 or too many plans
// is too large.
pub fn shortest_from(job: Job, plan: &[u8], minute: u16, goal: u64) -> Result<u32, NoMakespan> {
    let day = day_of(&job, goal)?;
    let before = before(&job, &day);
    if before.any_beyond() {
        return Err(NoMakespan::UseBeyond);
    }
    let kept = Kept::at_minute(before, plan, minute);
    if kept.suffices(minute) {
        return Ok(kept.end);
    }
    least_horizon(&kept, minute, job.deadline)
}

// The least end of the accepted plans of a job for its own goal: at minute 0 no step is kept.
pub fn shortest(job: Job) -> Result<u32, NoMakespan> {
    shortest_from(job, &[], 0, job.goal)
}
