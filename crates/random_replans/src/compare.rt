// Both planners on one begun day. The replanner's plan is also checked, and so are its kept steps, its peaks and the
// bytes that it leaves.
use compared::{NoEnd, Outcome, beside_call, unless_differs};
use job::Job;
use job::refusal::Refusal;
use lent::{first_steps, plan_of};
use second::NoMakespan;
use timeline::Plan;

// A job, the minute to which its day has come, and the new goal.
#[derive(Clone, Copy)]
pub struct Begun {
    pub job: Job,
    pub minute: u16,
    pub goal: u64,
}

// Whether a step with these bytes starts before the minute.
fn starts_before([_, low, high]: [u8; Plan::STEP], minute: u16) -> bool {
    u16::from_le_bytes([low, high]) < minute
}

// The steps that start before the minute. They stand first, since a plan is in order.
pub fn steps_before(plan: &[u8], minute: u16) -> &[u8] {
    let steps = plan.as_chunks::<{ Plan::STEP }>().0;
    let kept = steps
        .iter()
        .take_while(|step| starts_before(**step, minute))
        .count();
    first_steps(plan, kept)
}

impl Begun {
    // Whether the steps alone are accepted for the goal.
    pub fn suffice(&self, steps: &[u8]) -> bool {
        checker::check_for(self.job, self.goal, steps).is_ok()
    }

    // Whether the plan keeps these steps: no other of its steps starts before the minute, and none is added where these
    // meet the goal.
    fn keeps(&self, kept: &[u8], plan: &[u8]) -> bool {
        if self.suffice(kept) {
            return plan == kept;
        }
        steps_before(plan, self.minute) == kept
    }

    // What the second planner says. Where it finds no plan it is 24 for a foreign goal, and otherwise 35.
    fn told(&self, current: &[u8]) -> Outcome {
        second::shortest_from(self.job, current, self.minute, self.goal).map_err(|why| match why {
            NoMakespan::NoPlan if facts::foreign(self.job.facts, self.goal) => {
                NoEnd::Refused(Refusal::ForeignAskedFact)
            }
            NoMakespan::NoPlan => NoEnd::Refused(Refusal::NoPlanWithKept),
            _ => NoEnd::from(why),
        })
    }

    pub fn compare(&self, current: &[u8]) -> Outcome {
        let kept = steps_before(current, self.minute);
        let mut slice = [lent::FILL; Plan::BYTES];
        let minute = u32::from(self.minute);
        let day = replanner::replan(self.job, current, minute, self.goal, &mut slice);
        let outcome = beside_call(self.told(current), self.job, self.goal, &slice, day);
        match outcome {
            Ok(_) => unless_differs(self.keeps(kept, plan_of(&slice, day)), outcome),
            Err(_) => outcome,
        }
    }
}
