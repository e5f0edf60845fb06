// A begun day: the steps of a plan that start before a minute are kept as they are, and all others start at the minute
// or later. A plan is lent as the bytes of its steps.
use crate::day::{Day, State};
use crate::steps;
use crate::steps::Step;

// What the kept steps leave at the minute.
#[derive(Clone, Copy)]
pub struct Kept<'d> {
    pub state: State<'d>, // with the steps that still run
    pub end: u32, // by when the kept steps have ended
}

// Whether the plan has a step of the action that starts at this minute.
fn starts(plan: &[u8], number: usize, minute: u16) -> bool {
    steps::bytes_of(plan).iter().any(|bytes| {
        let step = Step::from(*bytes);
        usize::from(step.number) == number && step.start == minute
    })
}

impl<'d> Kept<'d> {
    // The steps of the plan that start at this minute, started.
    fn with_starts(mut self, plan: &[u8], minute: u16) -> Self {
        for number in 0..Day::ACTIONS {
            if starts(plan, number, minute) {
                let length = self.state.day.actions[number].duration;
                self.state = self.state.started(number);
                self.end = self.end.max(u32::from(minute) + u32::from(length));
            }
        }
        self
    }

    // What the plan's steps that start before the minute leave then, from the state before any step.
    pub fn at_minute(state: State<'d>, plan: &[u8], minute: u16) -> Self {
        let mut kept = Kept { state, end: 0 };
        for now in 0..minute {
            kept = kept.with_starts(plan, now);
            kept.state = kept.state.tick();
        }
        kept
    }

    // Whether the goal holds at the end of the kept steps, with none added.
    pub fn suffices(&self, minute: u16) -> bool {
        let minutes = self.end.saturating_sub(u32::from(minute));
        self.state.minutes_later(minutes).goal_holds()
    }
}
