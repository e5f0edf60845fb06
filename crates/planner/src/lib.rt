// The planner: a job and a lent slice in; a shortest plan at the front of the slice, or the first refusal of the
// job, of 21 and of 22.
#![tactic(auto)]

pub mod hand_out; // the answer of the search, in the lent slice

ghost use Rattle.job.specs.Job.{job_in};
ghost use Rattle.planner.specs.Plan.{Plans};

use hand_out::hand_out;
use job::Job;
use job::refusal::Refusal;
use job::validate::validate;
use solver::Task;
use timeline::{Day, Plan};

// Writes a shortest plan to the front of the slice, and returns its end, its number of steps and its peaks. A refusal
// changes no byte.
pub fn plan(job: Job, out: &mut [u8]) -> Result<Day, Refusal>
    ensures { Plans (job_in job) out.old result out.new }
{
    validate(job)?;
    if out.len() < Plan::BYTES {
        return Err(Refusal::PlanSlice);
    }
    let answer = solver::solve(job, Task::whole_day(job));
    hand_out(answer, Refusal::NoPlan, out)
}
