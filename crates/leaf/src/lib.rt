// What the search does at the first minute: the chosen steps in order, as a plan's bytes, held to the checker.
#![tactic(auto)]

mod order; // the steps in rising order
mod bytes; // the steps as bytes

ghost use Rattle.std.specs.Prelude.{◌≡◌, ◌≤◌};
ghost use Rattle.job.specs.Job.{job_in};
ghost use Rattle.leaf.specs.Answer.{Answers, Finishes};

use job::{Job, resumed};
use tables::{Frame, Steps};
use timeline::Plan;

// A plan that was found: its end, its number of steps, the peaks of the pools and its bytes, zeros behind them.
#[derive(Clone, Copy)]
pub struct Answer {
    pub end: u32,
    pub count: usize,
    pub peaks: [u32; Job::POOLS],
    pub plan: [u8; Plan::BYTES],
}

// The steps, which stand in order, as a plan, where the checker accepts it for the goal and it ends by the horizon.
pub fn as_plan(job: Job, goal: u64, horizon: u16, steps: Steps) -> Option<Answer>
    requires { steps.count ≤ 32 }
    ensures { Answers (job_in job) goal horizon steps result }
{
    let mut plan = [0u8; Plan::BYTES];
    bytes::write_plan(&mut plan, steps);
    let count = steps.count;
    let size = count * Plan::STEP;
    let day = checker::check_within(job, goal, &plan[..size]).ok()?;
    if u32::from(horizon) < day.end {
        return None;
    }
    let peaks = day.peaks;
    Some(Answer {
        end: day.end,
        count,
        peaks,
        plan,
    })
}

// The chosen steps as a plan of the file's job, begun with the frame's facts and supplies; or none, and then they are a
// dead end.
pub fn finish(file: &[u8], frame: Frame, steps: Steps) -> Option<Answer>
    requires { steps.count ≤ 32 }
    ensures { Finishes file.now frame steps result }
{
    let read = reader::read(file).ok()?;
    let supplies = frame.supplies;
    let job = resumed::resumed(read, frame.start, supplies);
    as_plan(job, frame.goal, frame.horizon, order::in_order(steps))
}
