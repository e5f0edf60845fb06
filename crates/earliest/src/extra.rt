// Actions behind a job's own: what is left of steps that run already.
ghost use Rattle.std.specs.Prelude.{◌≡◌, ◌<◌, length};
ghost use Rattle.earliest.specs.Extra.{no_extra, with_extra, AllFit};
ghost use Rattle.earliest.specs.Sweep.{IsAction};

use job::{Action, Job};
use timeline::Plan;

// The first `count` of these actions. Their pools and stores are those of the job. An array with a count: no heap.
#[derive(Clone, Copy)]
pub struct Extra {
    pub count: usize,
    pub actions: [Action; Plan::STEPS],
}

impl Extra {
    // No action.
    pub fn none() -> Extra
        ensures { result ≡ no_extra }
    {
        let unused = Action::unused();
        Extra {
            count: 0,
            actions: [unused; Plan::STEPS],
        }
    }
}

// How many actions the job has with those behind its own.
pub fn count_of(job: Job, extra: Extra) -> usize
    requires { AllFit job extra }
    ensures { result ≡ length (with_extra job extra).actions }
{
    let counts = job.counts;
    counts.actions + extra.count
}

// Action i of these.
pub fn action_of(job: Job, extra: Extra, i: usize) -> Action
    requires { AllFit job extra × (i < length (with_extra job extra).actions) }
    ensures { IsAction (with_extra job extra) job.facts i job.counts result }
{
    let counts = job.counts;
    if i < counts.actions {
        return job.actions[i];
    }
    extra.actions[i - counts.actions]
}
