// The replanner: a job, the current plan, a minute, a new goal and a lent slice in; a shortest day that keeps the steps
// begun before the minute, or the first refusal of the job, of 24, 12 to 19, 21 and 35.
#![tactic(auto)]

mod kept; // the steps that start before the minute

ghost use Rattle.std.specs.Prelude.{◌≡◌, false, length};
ghost use Rattle.facts.specs.FactSet.{foreign};
ghost use Rattle.job.specs.Job.{job_in};
ghost use Rattle.checker.specs.Check.{Valid};
ghost use Rattle.leaf.specs.Order.{in_order};
ghost use Rattle.replanner.specs.Replan.{Replans};
ghost use Rattle.replanner.specs.Kept.{KeptFit, Replanned};

use checker::checked_plan;
use job::Job;
use job::refusal::Refusal;
use job::validate::validate;
use leaf::Answer;
use planner::hand_out::hand_out;
use solver::Task;
use tables::Steps;
use timeline::{Day, Plan};

// The kept steps alone, where they meet the goal. Otherwise a shortest plan with them, and with no other step before
// the minute; from the deadline on there is none.
fn with_kept(job: Job, goal: u64, minute: u32, kept: Steps) -> Option<Answer>
    requires { Valid job × (foreign job.facts goal ≡ false) × KeptFit (job_in job) minute kept }
    ensures { Replanned (job_in job) goal minute (in_order (job_in job) kept) result }
{
    if let Some(alone) = leaf::as_plan(job, goal, job.deadline, kept) {
        return Some(alone);
    }
    if u32::from(job.deadline) <= minute {
        return None;
    }
    solver::solve(job, Task::begun(job, goal, minute as u16, kept))
}

// Writes a shortest day for the new goal that keeps the steps begun before the minute to the front of the slice, and
// returns its end, its number of steps and its peaks. A refusal changes no byte.
pub fn replan(
    job: Job,
    current: &[u8],
    minute: u32,
    goal: u64,
    out: &mut [u8],
) -> Result<Day, Refusal>
    ensures { Replans (job_in job) current.now minute goal out.old result out.new }
{
    validate(job)?;
    if facts::foreign(job.facts, goal) {
        return Err(Refusal::ForeignAskedFact);
    }
    let checked = checked_plan(job, 0, current)?;
    if out.len() < Plan::BYTES {
        return Err(Refusal::PlanSlice);
    }
    let kept = kept::kept_steps(checked.plan, minute);
    let answer = with_kept(job, goal, minute, kept);
    hand_out(answer, Refusal::NoPlanWithKept, out)
}
