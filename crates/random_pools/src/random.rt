// Random pairs of very small jobs: how many pooled days have a plan, the sum of their least ends, how many end earlier
// than the later of both jobs alone, how many pairs are refused, and how often the planners differ.
use crate::compare::compare;
use crate::draw::pair_of;
use compared::{Totals, one_more, over_seeds};
use std::io;

// What is counted over many pairs.
#[derive(Clone, Copy, Default)]
struct Counts {
    pairs: Totals,
    earlier: u64, // a plan, and it ends earlier than the later of both alone
    alone_none: u64, // a plan, and one of the jobs alone has none
}

impl Counts {
    // With the pair of one seed more.
    fn count(&mut self, rt: &impl Print, seed: u64) -> io::Result<()> {
        let pooled = compare(&pair_of(seed));
        if let Ok(end) = pooled.outcome {
            match pooled.alone {
                None => one_more(&mut self.alone_none),
                Some(alone) if end < alone => one_more(&mut self.earlier),
                Some(_) => {}
            }
        }
        self.pairs.count(rt, seed, pooled.outcome)
    }
}

pub fn pools(rt: &impl Print) -> io::Result<()> {
    output::heading(
        rt,
        "Random pairs of small jobs pooled, by the planner and by the second planner: seeds 0 to 1,999.",
    )?;
    let counts = over_seeds(2_000, |counts: &mut Counts, seed| counts.count(rt, seed))?;
    let pairs = counts.pairs;
    output::total(rt, "pairs", pairs.questions)?;
    pairs.print(rt)?;
    output::total(rt, "refused by 33", pairs.unlike)?;
    output::total(rt, "earlier than the later alone", counts.earlier)?;
    output::total(rt, "a plan that one alone lacks", counts.alone_none)
}
