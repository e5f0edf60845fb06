// Random small days already begun: how many have a plan, the sum of their least ends, how many are refused, and how
// often the planners differ.
use crate::compare::{Begun, steps_before};
use crate::draw;
use compared::{Totals, one_more, over_seeds};
use std::io;
use timeline::Plan;

// What is counted over many days.
#[derive(Clone, Copy, Default)]
struct Counts {
    nothing: Totals, // no step is kept
    kept: Totals, // some step is kept
    alone: u64, // the kept steps meet the goal
}

impl Counts {
    // With the day of one seed more.
    fn count(&mut self, rt: &impl Print, seed: u64) -> io::Result<()> {
        let job = random_jobs::random_job(seed);
        let mut slice = [0u8; Plan::BYTES];
        let steps = draw::current_steps(seed, job, &mut slice);
        let current = lent::first_steps(&slice, steps);
        let begun = Begun {
            job,
            minute: draw::minute(seed),
            goal: draw::new_goal(seed, &job),
        };
        let kept = steps_before(current, begun.minute);
        let outcome = begun.compare(current);
        if kept.is_empty() {
            return self.nothing.count(rt, seed, outcome);
        }
        if begun.suffice(kept) {
            one_more(&mut self.alone);
        }
        self.kept.count(rt, seed, outcome)
    }
}

fn print(rt: &impl Print, totals: Totals) -> io::Result<()> {
    output::total(rt, "days", totals.questions)?;
    totals.print(rt)?;
    output::total(rt, "refused by 24", totals.foreign_goal)
}

pub fn replans(rt: &impl Print) -> io::Result<()> {
    output::heading(
        rt,
        "Random small days already begun, by the replanner and by the second planner: seeds 0 to 5,999.",
    )?;
    let counts = over_seeds(6_000, |counts: &mut Counts, seed| counts.count(rt, seed))?;
    output::heading(rt, "No step is kept.")?;
    print(rt, counts.nothing)?;
    output::heading(rt, "Some step is kept.")?;
    print(rt, counts.kept)?;
    output::total(rt, "kept steps alone", counts.alone)
}
