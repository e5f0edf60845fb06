// Random small days in two halves: how many have a joined day, the sum of their ends, how many are refused, and how often
// the planners differ.
use crate::compare::compare;
use crate::draw::asked_of;
use compared::{Totals, one_more, over_seeds};
use std::io;

// What is counted over many days.
#[derive(Clone, Copy, Default)]
struct Counts {
    days: Totals,
    empty: u64, // days with an empty half
}

impl Counts {
    // With the day of one seed more.
    fn count(&mut self, rt: &impl Print, seed: u64) -> io::Result<()> {
        let halved = compare(&asked_of(seed));
        if halved.empty {
            one_more(&mut self.empty);
        }
        self.days.count(rt, seed, halved.outcome)
    }
}

pub fn halves(rt: &impl Print) -> io::Result<()> {
    output::heading(
        rt,
        "Random small days in two halves, by the call and by the second planner: seeds 0 to 1,999.",
    )?;
    let counts = over_seeds(2_000, |counts: &mut Counts, seed| counts.count(rt, seed))?;
    let days = counts.days;
    days.print(rt)?;
    output::total(rt, "refused by 24", days.foreign_goal)?;
    output::total(rt, "refused by 34", days.too_long)?;
    output::total(rt, "with an empty half", counts.empty)
}
