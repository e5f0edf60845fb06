// What two planners say of the same question, and totals over many questions.
#![tactic(auto)]

use job::Job;
use job::refusal::Refusal;
use second::NoMakespan;
use std::io;
use timeline::Day;

// Why there is no end that both say.
#[derive(Clone, Copy, PartialEq, Eq)]
pub enum NoEnd {
    Refused(Refusal), // by both
    TooLarge, // for the second planner
    Differs,
}

// The end that both say, or why there is none.
pub type Outcome = Result<u32, NoEnd>;

impl From<NoMakespan> for NoEnd {
    fn from(why: NoMakespan) -> NoEnd {
        match why {
            NoMakespan::NoPlan => NoEnd::Refused(Refusal::NoPlan),
            NoMakespan::UseBeyond => NoEnd::Refused(Refusal::UseBeyond),
            NoMakespan::TooLarge => NoEnd::TooLarge,
        }
    }
}

pub fn unless_differs(same: bool, told: Outcome) -> Outcome {
    if same { told } else { Err(NoEnd::Differs) }
}

// What the second planner tells, if a call answers the same: a day for the goal that ends then, in the slice, or that
// refusal.
pub fn beside_call(
    told: Outcome,
    job: Job,
    goal: u64,
    slice: &[u8],
    day: Result<Day, Refusal>,
) -> Outcome {
    let same = match told {
        Ok(end) => lent::handed_out(job, goal, slice, day, end),
        Err(NoEnd::Refused(why)) => lent::refused(slice, day, why),
        Err(_) => true,
    };
    unless_differs(same, told)
}

// What is counted over many questions. No sum comes near 64 bits.
#[derive(Clone, Copy, Default)]
pub struct Totals {
    pub questions: u64,
    pub plans: u64,
    pub no_plan: u64,
    pub use_beyond: u64,
    pub foreign_goal: u64,
    pub unlike: u64,
    pub too_long: u64,
    pub too_large: u64,
    pub differences: u64,
    pub ends: u64, // the sum of the least ends
}

pub fn one_more(n: &mut u64) {
    *n = n.wrapping_add(1);
}

impl Totals {
    // With the question of one seed more. A difference is printed with its seed.
    pub fn count(&mut self, rt: &impl Print, seed: u64, outcome: Outcome) -> io::Result<()> {
        one_more(&mut self.questions);
        match outcome {
            Ok(end) => {
                one_more(&mut self.plans);
                self.ends = self.ends.wrapping_add(u64::from(end));
            }
            Err(NoEnd::Refused(Refusal::NoPlan | Refusal::NoPlanWithKept)) => one_more(
                &mut self.no_plan,
            ),
            Err(NoEnd::Refused(Refusal::UseBeyond)) => one_more(&mut self.use_beyond),
            Err(NoEnd::Refused(Refusal::ForeignAskedFact)) => one_more(&mut self.foreign_goal),
            Err(NoEnd::Refused(Refusal::PoolUnlike)) => one_more(&mut self.unlike),
            Err(NoEnd::Refused(Refusal::JoinedTooLong)) => one_more(&mut self.too_long),
            Err(NoEnd::TooLarge) => one_more(&mut self.too_large),
            Err(NoEnd::Refused(_) | NoEnd::Differs) => {
                one_more(&mut self.differences);
                output::total(rt, "differs, seed", seed)?;
            }
        }
        Ok(())
    }

    // A line for each total that every program tells.
    pub fn print(&self, rt: &impl Print) -> io::Result<()> {
        output::total(rt, "with a plan", self.plans)?;
        output::total(rt, "no plan", self.no_plan)?;
        output::total(rt, "refused by 26", self.use_beyond)?;
        output::total(rt, "too large", self.too_large)?;
        output::total(rt, "differences", self.differences)?;
        output::total(rt, "sum of the ends", self.ends)
    }
}

// What is counted over the first so many seeds, by a function that counts the question of one.
pub fn over_seeds<C, F>(seeds: u64, mut count: F) -> io::Result<C>
where
    C: Default + Drop,
    F: FnMut(&mut C, u64) -> io::Result<()>,
    requires { F.IsAlwaysCallable count }
{
    let mut counts = C::default();
    for seed in 0..seeds {
        count(&mut counts, seed)?;
    }
    Ok(counts)
}
