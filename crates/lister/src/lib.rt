// The list of all the shortest days: the plan at a place of it.
#![tactic(auto)]

ghost use Rattle.job.specs.Job.{job_in};
ghost use Rattle.lister.specs.List.{Lists};

use job::Job;
use job::refusal::Refusal;
use job::validate::validate;
use planner::hand_out::hand_out;
use solver::Task;
use timeline::{Day, Plan};
use walker::page;

// Writes the plan at the place of the list, counted from 0, to the front of the slice, and returns its end, its number
// of steps and its peaks. A refusal changes no byte.
pub fn list(job: Job, place: u32, out: &mut [u8]) -> Result<Day, Refusal>
    ensures { Lists (job_in job) place out.old result out.new }
{
    validate(job)?;
    if out.len() < Plan::BYTES {
        return Err(Refusal::PlanSlice);
    }
    let answer = page::plan_at(job, Task::whole_day(job), place).ok_or(Refusal::NoPlan)?;
    hand_out(answer, Refusal::ListEnded, out)
}
