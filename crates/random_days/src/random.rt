// Random small jobs: how many have a plan, the sum of their least ends, how many are refused by 26, and how often the
// planners differ.
use compared::{Totals, over_seeds};
use std::io;
use two_planners::compare;

pub fn days(rt: &impl Print) -> io::Result<()> {
    output::heading(
        rt,
        "Random small jobs, by the planner and by the second planner: seeds 0 to 2,999.",
    )?;
    let totals = over_seeds(3_000, |totals: &mut Totals, seed| {
        totals.count(rt, seed, compare(random_jobs::random_job(seed)))
    })?;
    output::total(rt, "jobs", totals.questions)?;
    totals.print(rt)
}
