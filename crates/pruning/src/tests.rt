// Tests of a state: whether some normal plan may have its steps.
ghost use Rattle.std.specs.Prelude.{◌≡◌, ◌≤◌, ◌<◌, length};
ghost use Rattle.facts.specs.FactSet.{difference, meets};
ghost use Rattle.tables.specs.Tables.{adds_at, duration_at, Known, Lent};
ghost use Rattle.pruning.specs.Tests.{DeadUnless, NeedOf, NeedsAt, DeadUnlessReached, DeadUnlessTimely};

use earliest::set_time;
use states::state::State;
use states::{minute, union};
use tables::layout::SetTable;
use tables::{Frame, Steps};

// Whether action i adds a wanted fact that is not provided.
fn adds_alone(sets: &[u64], i: u8, provided: u64, wanted: u64) -> bool
    requires { (length sets.now ≡ 384) × (i < 64) }
    ensures { result ≡ meets (difference (adds_at sets.now i) provided) wanted }
{
    facts::meets(
        facts::difference(sets[i as usize * SetTable::ROW + SetTable::ADDS], provided),
        wanted,
    )
}

// Whether each step that stops now adds a wanted fact that no other step provides.
pub fn all_needed(sets: &[u64], actions: usize, st: State) -> bool
    requires { (length sets.now ≡ 384) × Known actions st.steps × (actions ≤ 64)
        × (st.since ≤ st.steps.count) }
    ensures { DeadUnless sets.now st result }
{
    let steps = st.steps;
    let provided = facts::union(st.at.held, st.twice);
    for k in st.since..steps.count {
        if !adds_alone(sets, steps.numbers[k], provided, st.wanted) {
            return false;
        }
    }
    true
}

// What a step of action i needs, if it runs in minute t.
fn need_of(sets: &[u64], numbers: &[u32], i: u8, start: u16, t: u32) -> u64
    requires { (length sets.now ≡ 384) × (length numbers.now ≡ 1220) × (i < 64)
        × (duration_at numbers.now i ≤ 255) }
    ensures { NeedOf sets.now numbers.now i start t result }
{
    let stop = minute::stop(numbers, i, start);
    facts::when(
        (u32::from(start) <= t) & (t < stop),
        sets[i as usize * SetTable::ROW],
    )
}

// What the chosen steps need that run in minute t.
fn needs_at(sets: &[u64], numbers: &[u32], actions: usize, steps: Steps, t: u32) -> u64
    requires { Lent sets.now numbers.now actions × Known actions steps }
    ensures { NeedsAt sets.now numbers.now actions steps t result }
{
    union::over(steps, |i, start| need_of(sets, numbers, i, start, t))
}

// Whether what the steps that run at a start between two minutes need can be there by then.
fn reached(
    sets: &[u64],
    numbers: &[u32],
    times: &[u32],
    frame: Frame,
    steps: Steps,
    start: u32,
    from: u32,
    until: u32,
) -> bool
    requires { Lent sets.now numbers.now frame.actions × Known frame.actions steps
        × (length times.now ≡ 2080) × (frame.facts ≤ 64) × (until < 65536) × (frame.origin ≤ frame.first)
        × (frame.first ≤ from) }
    ensures { DeadUnlessReached sets.now numbers.now times.now frame steps result }
{
    if start < from || until <= start {
        return true;
    }
    let needs = needs_at(sets, numbers, frame.actions, steps, start);
    set_time::by(times, frame.facts, needs, start - u32::from(frame.origin))
}

// Whether that is so at the start of each chosen step from a minute on.
pub fn all_reached(
    sets: &[u64],
    numbers: &[u32],
    times: &[u32],
    frame: Frame,
    st: State,
    from: u16,
) -> bool
    requires { Lent sets.now numbers.now frame.actions × Known frame.actions st.steps
        × (length times.now ≡ 2080) × (frame.facts ≤ 64) × (frame.origin ≤ frame.first)
        × (frame.first ≤ from) }
    ensures { DeadUnlessTimely sets.now numbers.now times.now frame st result }
{
    let steps = st.steps;
    let first = u32::from(from);
    let until = u32::from(st.minute);
    for start in &steps.starts[..steps.count] {
        if !reached(
            sets,
            numbers,
            times,
            frame,
            steps,
            u32::from(*start),
            first,
            until,
        ) {
            return false;
        }
    }
    true
}
