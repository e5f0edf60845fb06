// Random small jobs: how many have a plan, the sum of their least ends, how many plans are listed, how many jobs are
// refused, and how often the lists differ.
use crate::compare::compare;
use compared::{Totals, one_more, over_seeds};
use job::Job;
use std::io;

// What is counted over many jobs.
#[derive(Clone, Copy, Default)]
struct Counts {
    jobs: Totals,
    plans: u64,
    several: u64, // jobs with more than one plan listed
    most: u64, // the plans of the longest list
    begin_next: u64, // plans that begin the one behind them
}

// The job of a seed. In three seeds of four no action uses more of a pool or store than there is.
fn job_of(seed: u64) -> Job {
    if seed % 4 == 0 {
        return random_jobs::random_job(seed);
    }
    random_jobs::roomy_job(seed)
}

impl Counts {
    // With the job of one seed more.
    fn count(&mut self, rt: &impl Print, seed: u64) -> io::Result<()> {
        let compared = compare(job_of(seed));
        let plans = u64::from(compared.plans);
        self.plans = self.plans.wrapping_add(plans);
        if 1 < plans {
            one_more(&mut self.several);
        }
        self.most = self.most.max(plans);
        self.begin_next = self.begin_next.wrapping_add(u64::from(compared.begin_next));
        self.jobs.count(rt, seed, compared.outcome)
    }
}

pub fn lists(rt: &impl Print) -> io::Result<()> {
    output::heading(
        rt,
        "Random small jobs, all their shortest days by the lister and by the second planner: seeds 0 to 2,999.",
    )?;
    let counts = over_seeds(3_000, |counts: &mut Counts, seed| counts.count(rt, seed))?;
    let jobs = counts.jobs;
    output::total(rt, "jobs", jobs.questions)?;
    jobs.print(rt)?;
    output::total(rt, "plans listed", counts.plans)?;
    output::total(rt, "jobs with several", counts.several)?;
    output::total(rt, "the longest list", counts.most)?;
    output::total(rt, "plans that begin the next", counts.begin_next)
}
