// The steps of a plan: one more of them, the same without one of them, and their bytes.
ghost use Rattle.std.specs.Prelude.{◌≤◌};

use crate::day::{Day, State};

// A step: the number of its action, and its start.
#[derive(Clone, Copy)]
pub struct Step {
    pub number: u8,
    pub start: u16,
}

impl Step {
    // The bytes of a step: its action (1 byte) and its start (2 bytes, the low one first).
    pub const BYTES: usize = 3;
}

impl From<[u8; Step::BYTES]> for Step {
    fn from([number, low, high]: [u8; Step::BYTES]) -> Step {
        Step {
            number,
            start: u16::from_le_bytes([low, high]),
        }
    }
}

impl From<Step> for [u8; Step::BYTES] {
    fn from(step: Step) -> [u8; Step::BYTES] {
        let [low, high] = step.start.to_le_bytes();
        [step.number, low, high]
    }
}

// The bytes of each step of a plan.
pub fn bytes_of(plan: &[u8]) -> &[[u8; Step::BYTES]] {
    plan.as_chunks::<{ Step::BYTES }>().0
}

// The first `count` of these steps, in order: fixed memory, no heap.
#[derive(Clone, Copy)]
pub struct Steps {
    places: [Step; Day::STEPS],
    count: usize,
    ghost few: { count ≤ 32 },
}

impl Steps {
    // The bytes of a plan in a list: the number of its steps, then each step.
    pub const BYTES: usize = 1 + Day::STEPS * Step::BYTES;

    pub fn none() -> Steps {
        Steps {
            places: [Step {
                number: 0,
                start: 0,
            }; Day::STEPS],
            count: 0,
        }
    }

    // The steps with one more, where there are fewer than 32.
    pub fn with(mut self, step: Step) -> Steps {
        if self.count < Day::STEPS {
            self.places[self.count] = step;
            self.count += 1;
        }
        self
    }

    fn as_slice(&self) -> &[Step] {
        &self.places[..self.count]
    }
}

// The state of a day before any step, and the minute at which its plans end.
#[derive(Clone, Copy)]
pub struct Task<'d> {
    pub before: State<'d>,
    pub horizon: u32,
}

// Whether the steps but the one at this place are accepted: each may start, and the goal holds at the horizon. What holds
// at their own end still holds then, since no step runs in between.
fn accepted_without(task: &Task, steps: &Steps, dropped: usize) -> bool {
    let mut state = task.before;
    let mut minute = 0u32;
    for (k, step) in steps.as_slice().iter().enumerate() {
        if k != dropped {
            let number = usize::from(step.number);
            let start = u32::from(step.start);
            state = state.minutes_later(start.saturating_sub(minute));
            if Day::ACTIONS <= number
                || !state.may_start(number, task.horizon.saturating_sub(start))
            {
                return false;
            }
            state = state.started(number);
            minute = start;
        }
    }
    state
        .minutes_later(task.horizon.saturating_sub(minute))
        .goal_holds()
}

// Whether some single step can be dropped with the rest still accepted.
pub fn any_dropped(task: &Task, steps: &Steps) -> bool {
    (0..steps.count).any(|k| accepted_without(task, steps, k))
}

// Writes the steps as the plan at this place of a list.
pub fn write(out: &mut [u8], place: u32, steps: &Steps) {
    let from = place as usize * Steps::BYTES;
    if let Some((count, bytes)) = out
        .get_mut(from..from + Steps::BYTES)
        .and_then(|plan| plan.split_first_mut())
    {
        *count = steps.count as u8;
        for (to, step) in bytes
            .as_chunks_mut::<{ Step::BYTES }>()
            .0
            .iter_mut()
            .zip(&steps.places)
        {
            *to = <[u8; Step::BYTES]>::from(*step);
        }
    }
}
