// The tests of a job value, 3 to 11, 26, 27, 29 and 31, in the order of the table over the whole job.
ghost use Rattle.std.specs.Prelude.{◌≡◌, ◌≤◌};
ghost use Rattle.lists.specs.Lists.{firsts, any};
ghost use Rattle.job.specs.Job.{action_in, job_in, Fits};
ghost use Rattle.job.specs.Refusal.{first};
ghost use Rattle.job.specs.Valid.{over, breaks, broken_where, either_broken, action_rows, limit_rows, job_rows};

use crate::refusal::Refusal;
use crate::{Action, Counts, Job, beyond, lengths};

// Which of tests 8, 9, 10 and 11 fail: true for each that does.
#[derive(Clone, Copy)]
pub struct Broken {
    pub duration: bool,
    pub facts: bool,
    pub effects: bool,
    pub uses: bool,
}

impl Broken {
    // Those that one of two fails.
    fn either(self, other: Broken) -> Broken
        ensures { result ≡ either_broken self other }
    {
        Broken {
            duration: self.duration | other.duration,
            facts: self.facts | other.facts,
            effects: self.effects | other.effects,
            uses: self.uses | other.uses,
        }
    }
}

// Whether one of the first n amounts is over the limit.
pub fn any_over(limit: u32, amounts: [u32; Job::AMOUNTS], n: usize) -> bool
    requires { n ≤ 4 }
    ensures { result ≡ any (over limit) (firsts n 0 amounts) }
{
    let limits = [u64::from(limit); Job::AMOUNTS];
    beyond::any_above(limits, beyond::widened(amounts), n)
}

// Whether one of the first n handovers is over the longest.
fn any_too_long(handovers: [u8; Job::POOLS], n: usize) -> bool
    requires { n ≤ 4 }
    ensures { result ≡ any (over 30) (firsts n 0 handovers) }
{
    let mut found = false;
    for k in 0..n {
        found |= Job::HANDOVER < handovers[k];
    }
    found
}

// Those that an action fails in a job with so many facts, pools and stores.
fn broken_by(action: Action, facts: u8, counts: Counts) -> Broken
    requires { Fits counts }
    ensures { result ≡ broken_where (λ rule. breaks rule facts (action_in counts action)) }
{
    let pools = action.pools;
    let stores = action.stores;
    Broken {
        duration: action.duration == 0,
        facts: facts::foreign(facts, action.needs)
            | facts::foreign(facts, action.adds)
            | facts::foreign(facts, action.deletes),
        effects: facts::meets(action.adds, action.deletes),
        uses: any_over(Action::USE, pools, counts.pools)
            | any_over(Action::USE, stores, counts.stores),
    }
}

// Those that some action of the job fails: all in one pass, since each pass over a job by value copies it.
fn any_broken(job: Job) -> Broken
    requires { Fits job.counts }
    ensures { result ≡ broken_where (λ rule. any (breaks rule job.facts) (job_in job).actions) }
{
    let counts = job.counts;
    let mut broken = Broken {
        duration: false,
        facts: false,
        effects: false,
        uses: false,
    };
    for i in 0..counts.actions {
        broken = broken.either(broken_by(job.actions[i], job.facts, counts));
    }
    broken
}

// The first of tests 8, 29 and 9 to 11 that fails.
fn validate_actions(job: Job) -> Result<(), Refusal>
    requires { Fits job.counts }
    ensures { result ≡ first (action_rows (job_in job)) }
{
    let broken = any_broken(job);
    if broken.duration {
        return Err(Refusal::ZeroDuration);
    }
    if lengths::any_wrong_range(job) {
        return Err(Refusal::ShortestLength);
    }
    if broken.facts {
        return Err(Refusal::ForeignActionFact);
    }
    if broken.effects {
        return Err(Refusal::AddedAndDeleted);
    }
    if broken.uses {
        return Err(Refusal::ActionUse);
    }
    Ok(())
}

// The first of its limits, tests 3 to 11, 27, 29 and 31, that the job fails. Of what is left of a day no more is asked.
pub fn validate_limits(job: Job) -> Result<(), Refusal>
    ensures { result ≡ first (limit_rows (job_in job)) }
{
    let counts = job.counts;
    let form = job.form;
    let rule = job.rule;
    let pools = job.pools;
    let handovers = job.handovers;
    let stores = job.stores;
    if (Job::POOLS < counts.pools)
        | (Job::STORES < counts.stores)
        | (Job::ACTIONS < counts.actions)
    {
        return Err(Refusal::BodySizes);
    }
    if Job::FACTS < job.facts {
        return Err(Refusal::FactCount);
    }
    if Job::DEADLINE < job.deadline {
        return Err(Refusal::Deadline);
    }
    if Job::RESERVE < rule.reserve(job.reserve) {
        return Err(Refusal::ReserveOver);
    }
    if facts::foreign(job.facts, job.start) | facts::foreign(job.facts, job.goal) {
        return Err(Refusal::ForeignFact);
    }
    if any_over(Job::AVAILABILITY, pools, counts.pools)
        | any_over(Job::AVAILABILITY, stores, counts.stores)
    {
        return Err(Refusal::Availability);
    }
    if any_too_long(handovers, form.handovers(counts.pools)) {
        return Err(Refusal::HandoverOver);
    }
    validate_actions(job)
}

// The first of its tests that the job fails. Every call that is handed a job value begins with it.
pub fn validate(job: Job) -> Result<(), Refusal>
    ensures { result ≡ first (job_rows (job_in job)) }
{
    validate_limits(job)?;
    if beyond::any_beyond(job) {
        return Err(Refusal::UseBeyond);
    }
    Ok(())
}
