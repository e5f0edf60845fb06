// Joining two plans: a job, two plans' bytes and a lent slice in; the joined plan at the front of the slice, or the
// first refusal of the job, of 12 to 15 of the first plan and of the second, of 21 and of 34, out.
#![tactic(auto)]

mod later; // a plan's bytes, so many minutes later
mod told; // what is told of two plans joined

ghost use Rattle.job.specs.Job.{job_in};
ghost use Rattle.joining.specs.Answer.{Joins};

use checker::check_shape;
use job::Job;
use job::refusal::Refusal;
use job::validate::validate;
use timeline::{Day, Plan};

// Writes the joined plan to the front of the slice, and returns its end, its number of steps and its peaks, whether or
// not it passes 16 to 20. A refusal changes no byte.
pub fn join(job: Job, first: &[u8], second: &[u8], out: &mut [u8]) -> Result<Day, Refusal>
    ensures { Joins (job_in job) first.now second.now out.old result
        out.new }
{
    validate(job)?;
    let morning = check_shape(job, first)?;
    let afternoon = check_shape(job, second)?;
    if out.len() < Plan::BYTES {
        return Err(Refusal::PlanSlice);
    }
    let minutes = told::starts_at(job, morning);
    let day = told::both(morning, afternoon, minutes);
    if told::too_long(job, day) {
        return Err(Refusal::JoinedTooLong);
    }
    later::write_both(out, first, second, minutes);
    Ok(day)
}
