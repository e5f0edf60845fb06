// One search for every task: a shortest plan that counts, or that there is none.
#![tactic(auto)]

ghost use Rattle.std.specs.Prelude.{◌≡◌, ◌≤◌, replicate};
ghost use Rattle.job.specs.Job.{job_in, Fits};
ghost use Rattle.job.specs.Refusal.{first};
ghost use Rattle.job.specs.Valid.{job_rows};
ghost use Rattle.job.specs.Refusal.{pass};
ghost use Rattle.tables.specs.Tables.{Known};
ghost use Rattle.times.specs.Numbers.{none};
ghost use Rattle.leaf.specs.Order.{in_order};
ghost use Rattle.solver.specs.Task.{begun_day, whole_day, day_of, StartBefore, TaskFits, RestTimes, Solved};

use earliest::set_time;
use job::{Job, resumed};
use jobfile::Layout;
use leaf::Answer;
use pairs::Pair;
use search::horizons;
use tables::layout::{NumberTable, SetTable};
use tables::{Frame, Steps};

// What is asked of a job: with which facts the day starts and what its stores have, the goal, the first minute at which
// new steps may start, and the kept steps, which start before it.
#[derive(Clone, Copy)]
pub struct Task {
    pub start: u64,
    pub stocks: [u32; Job::STORES],
    pub goal: u64,
    pub first: u16,
    pub kept: Steps,
}

impl Task {
    // A day of the job for a goal, begun with the kept steps.
    pub fn begun(job: Job, goal: u64, first: u16, kept: Steps) -> Task
        ensures { result ≡ begun_day job goal first kept }
    {
        let stocks = job.stores;
        Task {
            start: job.start,
            stocks,
            goal,
            first,
            kept,
        }
    }

    // The whole day of a job, for its goal.
    pub fn whole_day(job: Job) -> Task
        ensures { result ≡ whole_day job }
    {
        Task::begun(job, job.goal, 0, Steps::none())
    }
}

// Fills the earliest times of what is left of the day from the minute on. Returns what is at hand then.
pub fn fill_times(times: &mut [u32], day: Job, kept: Steps, minute: u16) -> u64
    requires { (times.old ≡ replicate 2080 none) × (day.facts ≤ 64) × Fits day.counts
        × Known day.counts.actions kept × StartBefore minute kept }
    ensures { RestTimes day kept minute times.new result }
{
    let plan = begun::kept_plan(day, kept);
    let held = begun::held_at(plan, day.start, minute);
    let extra = begun::rest_actions(plan, minute);
    let stores = day.stores;
    let rest = resumed::resumed(day, held, stores);
    earliest::sweep::fill(times, rest, extra);
    begun::at_hand(plan, held, minute)
}

// A shortest plan of the task that counts, from the tables of the day, the earliest times and landmarks of what is left
// of it, and the file of the job.
pub fn solve(job: Job, task: Task) -> Option<Answer>
    requires { (first (job_rows (job_in job)) ≡ pass) × TaskFits (day_of job task) task }
    ensures { Solved (day_of job task) task.goal task.first (in_order (day_of job task) task.kept) result }
{
    let stocks = task.stocks;
    let kept = task.kept;
    let day = resumed::resumed(job, task.start, stocks);
    let mut sets = [0u64; SetTable::ENTRIES];
    let mut numbers = [0u32; NumberTable::ENTRIES];
    tables::fill::fill(&mut sets, &mut numbers, day);
    let mut times = [set_time::NONE; Pair::COUNT];
    let hand = fill_times(&mut times, day, kept, task.first);
    let frame = Frame::of(day, task.goal, task.first, kept);
    cliques::fill(&mut sets, &mut numbers, &times, frame, hand);
    let mut file = [0u8; Layout::FILE];
    let length = writer::write(job, &mut file).ok()?;
    horizons::shortest(&sets, &numbers, &times, &file[..length], frame)
}
