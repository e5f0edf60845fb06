// Random small jobs: how many have a plan, the sum of their least ends, and how many are refused by 26.
use compared::{NoEnd, Totals, one_more, over_seeds};
use job::Job;
use job::refusal::Refusal;
use job::validate::validate;
use std::io;

// What is counted over many jobs.
#[derive(Clone, Copy, Default)]
struct Counts {
    invalid: u64, // jobs that fail one of tests 3 to 11
    jobs: Totals,
}

fn is_invalid(job: Job) -> bool {
    validate(job).is_err_and(|why| why != Refusal::UseBeyond)
}

impl Counts {
    // With the job of one seed more.
    fn count(&mut self, rt: &impl Print, seed: u64) -> io::Result<()> {
        let job = random_jobs::random_job(seed);
        if is_invalid(job) {
            one_more(&mut self.invalid);
        }
        let told = second::shortest(job).map_err(NoEnd::from);
        self.jobs.count(rt, seed, told)
    }
}

pub fn jobs(rt: &impl Print) -> io::Result<()> {
    output::heading(rt, "Random small jobs: seeds 0 to 599.")?;
    let counts = over_seeds(600, |counts: &mut Counts, seed| counts.count(rt, seed))?;
    let jobs = counts.jobs;
    output::total(rt, "invalid", counts.invalid)?;
    output::total(rt, "with a plan", jobs.plans)?;
    output::total(rt, "no plan", jobs.no_plan)?;
    output::total(rt, "refused by 26", jobs.use_beyond)?;
    output::total(rt, "too large", jobs.too_large)?;
    output::total(rt, "sum of the ends", jobs.ends)
}
