// The least horizon with a plan.
ghost use Rattle.std.specs.Prelude.{◌≡◌, true, ◌≤◌, ◌<◌, min};
ghost use Rattle.search.specs.Horizons.{until, Whole, Solves, Rises, Narrows, Descends};
ghost use Rattle.search.specs.Horizons.{ShortestFrom, Shortest};

use crate::{bounds, regress};
use leaf::Answer;
use states::state::State;
use states::{amounts, minute};
use tables::Frame;

// The frame for another horizon.
pub fn until(frame: Frame, horizon: u16) -> Frame
    ensures { result ≡ until frame horizon }
{
    Frame { horizon, ..frame }
}

// A plan that ends by the frame's horizon. With no free minute left there are the kept steps; this second call of
// `finish` also keeps its large frame out of the recursion, where a function called once would be inlined.
pub fn solve(
    sets: &[u64],
    numbers: &[u32],
    times: &[u32],
    file: &[u8],
    frame: Frame,
) -> Option<Answer>
    requires { Whole sets.now numbers.now times.now frame }
    ensures { Solves file.now sets.now numbers.now times.now
        frame result }
{
    let steps = frame.kept;
    if frame.horizon <= frame.first {
        return leaf::finish(file, frame, steps);
    }
    let minute = minute::wide(frame.horizon);
    let at = minute::look(sets, numbers, frame.actions, steps, minute);
    let st = State {
        steps: steps,
        minute: frame.horizon,
        wanted: frame.goal,
        at: at,
        uses: amounts::look(numbers, frame, steps, minute),
        twice: 0,
        since: steps.count,
    };
    regress::regress(sets, numbers, times, file, frame, st)
}

// A plan, and the minute before which none ends.
#[derive(Clone, Copy)]
pub struct Rise {
    pub low: u32,
    pub answer: Answer,
}

// The next horizon to try, at most the last.
fn next_horizon(horizon: u16, stride: u16, last: u16) -> u16
    requires { (horizon < last) × (1 ≤ stride) × (last ≤ 1440) }
    ensures { (horizon < result) × (result ≤ last) }
{
    horizon.saturating_add(stride).min(last)
}

// The longest stride, in minutes: the last power of two before the latest deadline.
const LONGEST_STRIDE: u16 = 1_024;

// Twice the stride, up to the longest.
fn longer(stride: u16) -> u16
    requires { 1 ≤ stride }
    ensures { 1 ≤ result }
{
    stride.saturating_mul(2).min(LONGEST_STRIDE)
}

// From the minute `low` upwards with doubling strides, until a plan is found or the frame's horizon has none.
fn ascend(
    sets: &[u64],
    numbers: &[u32],
    times: &[u32],
    file: &[u8],
    frame: Frame,
    low: u16,
) -> Option<Rise>
    requires { Whole sets.now numbers.now times.now frame × (low ≤ frame.horizon) }
    ensures { Rises file.now sets.now numbers.now times.now
        frame low result }
{
    let mut bound = minute::wide(low);
    let mut horizon = low;
    let mut stride: u16 = 1;
    while horizon < frame.horizon {
        if let Some(answer) = solve(sets, numbers, times, file, until(frame, horizon)) {
            return Some(Rise { low: bound, answer });
        }
        bound = minute::wide(horizon) + 1;
        horizon = next_horizon(horizon, stride, frame.horizon);
        stride = longer(stride);
    }
    let answer = solve(sets, numbers, times, file, frame)?;
    Some(Rise { low: bound, answer })
}

// Tries the horizon in the middle between the lower bound and the end of the plan.
fn halve(
    sets: &[u64],
    numbers: &[u32],
    times: &[u32],
    file: &[u8],
    frame: Frame,
    low: u32,
    best: Answer,
) -> Rise
    requires { Whole sets.now numbers.now times.now frame × (low < best.end) × (best.end ≤ frame.horizon) }
    ensures { Narrows file.now sets.now numbers.now times.now
        frame low best result }
{
    let middle = low + (best.end - low) / 2;
    let horizon = (middle % minute::MINUTES) as u16;
    match solve(sets, numbers, times, file, until(frame, horizon)) {
        Some(answer) if answer.end <= middle => Rise { low, answer },
        _ => Rise {
            low: middle + 1,
            answer: best,
        },
    }
}

// The shortest plan, from a plan and a lower bound.
fn descend(
    sets: &[u64],
    numbers: &[u32],
    times: &[u32],
    file: &[u8],
    frame: Frame,
    low: u32,
    best: Answer,
) -> Answer
    requires { Whole sets.now numbers.now times.now frame × (best.end ≤ frame.horizon) }
    ensures { Descends file.now sets.now numbers.now times.now
        frame low best result }
{
    let mut bound = low;
    let mut plan = best;
    while bound < plan.end {
        let next = halve(sets, numbers, times, file, frame, bound, plan);
        bound = next.low;
        plan = next.answer;
    }
    plan
}

// The shortest plan by the frame's horizon, from a minute before which none ends.
fn shortest_from(
    sets: &[u64],
    numbers: &[u32],
    times: &[u32],
    file: &[u8],
    frame: Frame,
    low: u16,
) -> Option<Answer>
    requires { Whole sets.now numbers.now times.now frame × (low ≤ frame.horizon) }
    ensures { ShortestFrom file.now sets.now numbers.now times.now
        frame low result }
{
    let rise = ascend(sets, numbers, times, file, frame, low)?;
    let answer = rise.answer;
    if minute::wide(frame.horizon) < answer.end {
        return None;
    }
    Some(descend(sets, numbers, times, file, frame, rise.low, answer))
}

// The earlier of two minutes.
fn earlier(a: u16, b: u16) -> u16
    ensures { result ≡ min a b }
{
    if a < b {
        return a;
    }
    b
}

// The shortest plan by the frame's horizon. By the first free minute there are the kept steps alone; a longer plan is
// sought from the least bound on its end upwards.
pub fn shortest(
    sets: &[u64],
    numbers: &[u32],
    times: &[u32],
    file: &[u8],
    frame: Frame,
) -> Option<Answer>
    requires { Whole sets.now numbers.now times.now frame }
    ensures { Shortest file.now sets.now numbers.now times.now
        frame result }
{
    let begun = until(frame, earlier(frame.first, frame.horizon));
    let kept = solve(sets, numbers, times, file, begun);
    if kept.is_some() {
        return kept;
    }
    if frame.horizon <= frame.first {
        return None;
    }
    let low = bounds::lowest(times, frame);
    if minute::wide(frame.horizon) < low {
        return None;
    }
    shortest_from(
        sets,
        numbers,
        times,
        file,
        frame,
        (low % minute::MINUTES) as u16,
    )
}
