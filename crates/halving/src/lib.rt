// A day planned in two halves: the first plan of the list for a halfway set, then the first for the goal from what that
// leaves, joined. Why a day so planned is accepted stands in proofs/.
#![tactic(auto)]

ghost use Rattle.std.specs.Prelude.{◌≡◌, false, [], ◌≤◌, ◌<◌};
ghost use Rattle.facts.specs.FactSet.{foreign};
ghost use Rattle.job.specs.Job.{job_in, Fits};
ghost use Rattle.job.specs.Refusal.{first};
ghost use Rattle.job.specs.Valid.{job_rows};
ghost use Rattle.job.specs.Refusal.{pass};
ghost use Rattle.walker.specs.Page.{PageOf};
ghost use Rattle.timeline.specs.Step.{steps_in};
ghost use Rattle.timeline.specs.Accepted.{Accepted};
ghost use Rattle.timeline.specs.Timeline.{end};
ghost use Rattle.timeline.specs.Value.{steps_of};
ghost use Rattle.halving.specs.Afternoon as rest;
ghost use Rattle.halving.specs.Halves.{FirstListed, Halves};
ghost use Rattle.halving.specs.Inner.{StoresSuffice, LeftInStores, LeavesTask};

use begun::held_at;
use checker::rules;
use job::refusal::Refusal;
use job::resources::allowed;
use job::validate::validate;
use job::{Job, resumed};
use leaf::Answer;
use solver::Task;
use tables::Steps;
use timeline::{Day, Plan};
use walker::page;

// What the plan leaves of the allowed total of each store.
fn left(job: Job, plan: Plan) -> [u32; Job::STORES]
    requires { (plan.length ≤ 32) × (plan.counts ≡ job.counts) × Fits job.counts × StoresSuffice job plan }
    ensures { LeftInStores job plan job.counts.stores result }
{
    let counts = job.counts;
    let limits = allowed(job);
    let mut out = [0u32; Job::STORES];
    for k in 0..counts.stores {
        out[k] = (job::wide(limits[k]) - rules::used_up(plan, job, k)) as u32;
    }
    out
}

// The task of the afternoon, for the job without its reserve: the facts that hold at the end of the plan, what it
// leaves of the stores, the job's goal, from minute 0.
pub fn afternoon(job: Job, plan: Plan) -> Task
    requires length_bound { (plan.length ≤ 32) × (plan.counts ≡ job.counts) × Fits job.counts × StoresSuffice job plan }
    requires plan_bound { end (steps_of plan) < 65536 }
    ensures { LeavesTask job plan result }
{
    let last = rules::end(plan);
    let start = held_at(plan, job.start, last as u16);
    let stocks = left(job, plan);
    Task {
        start,
        stocks,
        goal: job.goal,
        first: 0,
        kept: Steps::none(),
    }
}

// The first plan of the list for the halfway set.
fn first_half(job: Job, halfway: u64) -> Option<Option<Answer>>
    requires { (first (job_rows (job_in job)) ≡ pass) × (foreign job.facts halfway ≡ false) }
    ensures { PageOf (job_in job) halfway 0 result }
{
    page::plan_at(job, Task::begun(job, halfway, 0, Steps::none()), 0)
}

// The first plan of the list for the job's goal, from the facts and stores that the morning's plan leaves.
fn second_half(job: Job, halfway: u64, morning: &[u8]) -> Option<Option<Answer>>
    requires { (first (job_rows (job_in job)) ≡ pass) × Accepted (job_in job) halfway morning.now }
    ensures { PageOf (rest.afternoon (job_in job) (steps_in (job_in job) morning.now)) job.goal 0
        result }
{
    let checked = checker::checked_plan(job, halfway, morning).unwrap();
    let task = afternoon(job, checked.plan);
    page::plan_at(resumed::without_reserve(job), task, 0)
}

// Writes the day joined from two halves to the front of the slice, and returns its end, its number of steps and its
// peaks. A refusal changes no byte.
pub fn halves(job: Job, halfway: u64, out: &mut [u8]) -> Result<Day, Refusal>
    ensures { Halves FirstListed (job_in job) halfway out.old result out.new }
{
    validate(job)?;
    if facts::foreign(job.facts, halfway) {
        return Err(Refusal::ForeignAskedFact);
    }
    if out.len() < Plan::BYTES {
        return Err(Refusal::PlanSlice);
    }
    let first = first_half(job, halfway).flatten().ok_or(Refusal::NoPlan)?;
    let morning = &first.plan[..Plan::STEP * first.count];
    let second = second_half(job, halfway, morning)
        .flatten()
        .ok_or(Refusal::NoPlan)?;
    let later = &second.plan[..Plan::STEP * second.count];
    joining::join(job, morning, later, out)
}
