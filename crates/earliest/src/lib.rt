// Earliest times: the one solution of the equations for pairs of facts, and the time of any set.
#![tactic(auto)]

pub mod set_time; // the time of a set, from a table
mod start; // the times at the start
mod lower; // entries lowered
mod choices; // the choices for two facts
mod allowed; // which actions may be chosen
pub mod extra; // actions behind a job's own
pub mod sweep; // all choices, until no entry falls

ghost use Rattle.std.specs.Prelude.{◌≡◌, cond, ltb};
ghost use Rattle.job.specs.Job.{job_in};
ghost use Rattle.times.specs.Time.{at, unreachable};
ghost use Rattle.earliest.specs.Answer.{answer_of, Answers};

use crate::extra::Extra;
use job::Job;
use job::refusal::Refusal;
use job::validate::validate;
use pairs::Pair;

// The time that a number of a table stands for, or none where that is unreachable.
fn answer(time: u32) -> Option<u32>
    ensures { result ≡ answer_of (cond (ltb 530400 time) unreachable (at time)) }
{
    if set_time::LATEST < time {
        return None;
    }
    Some(time)
}

// The earliest time of a set of facts, or none where it is unreachable; or the first refusal of the job and of 24.
pub fn earliest(job: Job, set: u64) -> Result<Option<u32>, Refusal>
    ensures { Answers (job_in job) set result }
{
    validate(job)?;
    if facts::foreign(job.facts, set) {
        return Err(Refusal::ForeignAskedFact);
    }
    let mut table = [set_time::NONE; Pair::COUNT];
    sweep::fill(&mut table, job, Extra::none());
    Ok(answer(set_time::set_time(&table, job.facts, set)))
}
