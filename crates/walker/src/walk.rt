// The walk over the listed plans that begin with some steps, in the list's order.
ghost use Rattle.std.specs.Prelude.{◌≡◌, ◌<◌, ◌*◌};
ghost use Rattle.search.specs.Horizons.{Whole};
ghost use Rattle.tails.specs.Tails.{TailTable};
ghost use Rattle.walker.specs.Walk.{none_left, Kept, Attempts, Walks};

use crate::{ask, forward, visit};
use leaf::Answer;
use states::minute;
use tables::{Frame, Steps};
use timeline::Plan;

// The plan at the place asked for; or how many places are left behind the plans that were met.
#[derive(Clone, Copy)]
pub struct Walk {
    pub left: u32,
    pub answer: Option<Answer>,
}

// No plan was met.
fn none(left: u32) -> Walk
    ensures { result ≡ none_left left }
{
    Walk { left, answer: None }
}

// Among the listed plans that begin with the steps and then the action and the minute of the place.
#[cycle(attempt_walk_on)]
fn attempt(
    sets: &[u64],
    numbers: &[u32],
    times: &[u32],
    tails: &[u32],
    file: &[u8],
    frame: Frame,
    steps: Steps,
    held: u64,
    place: u32,
    left: u32,
) -> Walk
    requires { Whole sets.now numbers.now times.now frame × Kept frame steps × (frame.origin ≡ 0)
        × (steps.count < 32) × (place < frame.horizon * 64)
        × TailTable sets.now numbers.now frame.actions frame.goal tails.now }
    ensures { Attempts file.now sets.now numbers.now times.now
        frame steps held place left result }
{
    let number = (place % forward::ROW) as u8;
    let start = (place / forward::ROW % minute::MINUTES) as u16;
    if !ask::needs_allow(
        sets,
        numbers,
        tails,
        frame.actions,
        frame.horizon,
        held,
        number,
        start,
    ) {
        return none(left);
    }
    let next = steps.push(number, start);
    if !ask::steps_allow(sets, numbers, tails, file, frame, next) {
        return none(left);
    }
    if !ask::search_allows(sets, numbers, times, file, frame, next, start, number) {
        return none(left);
    }
    walk_on(
        sets,
        numbers,
        times,
        tails,
        file,
        frame,
        next,
        held,
        place + 1,
        left,
    )
}

// Among the listed plans that begin with the steps: these themselves first, then place by place those that go on with
// one step more.
#[cycle(attempt_walk_on)]
pub fn walk_on(
    sets: &[u64],
    numbers: &[u32],
    times: &[u32],
    tails: &[u32],
    file: &[u8],
    frame: Frame,
    steps: Steps,
    held: u64,
    from: u32,
    left: u32,
) -> Walk
    requires { Whole sets.now numbers.now times.now frame × Kept frame steps × (frame.origin ≡ 0)
        × TailTable sets.now numbers.now frame.actions frame.goal tails.now }
    ensures { Walks file.now sets.now numbers.now times.now
        frame steps held from left result }
{
    let mut w = visit::visit(file, frame, steps, left);
    if w.answer.is_some() {
        return w;
    }
    if Plan::STEPS <= steps.count {
        return w;
    }
    let last = minute::wide(frame.horizon) * forward::ROW;
    let mut holds = held;
    let mut place = from;
    while place < last {
        holds = forward::forward(sets, numbers, frame.actions, steps, holds, place);
        w = attempt(
            sets, numbers, times, tails, file, frame, steps, holds, place, w.left,
        );
        if w.answer.is_some() {
            return w;
        }
        place += 1;
    }
    w
}
