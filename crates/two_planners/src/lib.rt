// Both planners on one job. The planner's plan is also checked, and so are its peaks and the bytes that it leaves.
#![tactic(auto)]

use compared::{NoEnd, Outcome, beside_call};
use job::Job;
use timeline::Plan;

pub fn compare(job: Job) -> Outcome {
    let mut slice = [lent::FILL; Plan::BYTES];
    let day = planner::plan(job, &mut slice);
    let told = second::shortest(job).map_err(NoEnd::from);
    beside_call(told, job, job.goal, &slice, day)
}
