// Whether a plan is listed, and how many places are left behind it.
ghost use Rattle.std.specs.Prelude.{◌≡◌, ◌≤◌, ◌<◌};
ghost use Rattle.walker.specs.Walk.{without, ListedTest, NoneDropped, Visits};

use crate::walk::Walk;
use leaf::Answer;
use tables::{Frame, Steps};

// The steps without step i, the last one in its place.
fn without(steps: Steps, i: usize) -> Steps
    requires { (i < steps.count) × (steps.count ≤ 32) }
    ensures { result ≡ without steps i }
{
    let mut out = steps;
    let last = steps.count - 1;
    out.numbers[i] = steps.numbers[last];
    out.starts[i] = steps.starts[last];
    out.count = last;
    out
}

// Whether no single step can be dropped with the rest still accepted.
fn none_dropped(file: &[u8], frame: Frame, steps: Steps) -> bool
    requires { steps.count ≤ 32 }
    ensures { NoneDropped file.now frame steps result }
{
    for i in 0..steps.count {
        if leaf::finish(file, frame, without(steps, i)).is_some() {
            return false;
        }
    }
    true
}

// The steps as a plan, where it is listed.
fn listed(file: &[u8], frame: Frame, steps: Steps) -> Option<Answer>
    requires { steps.count ≤ 32 }
    ensures { ListedTest file.now frame steps result }
{
    let answer = leaf::finish(file, frame, steps)?;
    if !none_dropped(file, frame, steps) {
        return None;
    }
    Some(answer)
}

// The steps as a plan, where it is listed and no place is left before it; or one place less.
pub fn visit(file: &[u8], frame: Frame, steps: Steps, left: u32) -> Walk
    requires { steps.count ≤ 32 }
    ensures { Visits file.now frame steps left result }
{
    match listed(file, frame, steps) {
        None => Walk { left, answer: None },
        Some(plan) if left == 0 => Walk {
            left,
            answer: Some(plan),
        },
        Some(_) => Walk {
            left: left - 1,
            answer: None,
        },
    }
}
