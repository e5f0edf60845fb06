// From one state of the search to the next.
ghost use Rattle.std.specs.Prelude.{◌≡◌, ◌-◌, ◌≤◌, ◌<◌, length};
ghost use Rattle.tables.specs.Tables.{duration_at, Known, Lent};
ghost use Rattle.states.specs.Amounts.{Small};
ghost use Rattle.states.specs.Moves.{Taken, NoStartBetween, NoEventBetween, GoneOf, Gone, Back};

use crate::state::State;
use crate::{amounts, minute, union};
use job::Job;
use tables::layout::{NumberTable, SetTable};
use tables::{Frame, Steps};

// When action i starts that stops then.
pub fn start_of(numbers: &[u32], i: u8, stop: u16) -> u16
    requires { (length numbers.now ≡ 1220) × (i < 64) × (duration_at numbers.now i ≤ stop) }
    ensures { result ≡ stop - duration_at numbers.now i }
{
    let start = minute::wide(stop) - numbers[i as usize * NumberTable::ROW];
    (start % minute::MINUTES) as u16
}

// The state with action i stopping at its minute.
pub fn take(sets: &[u64], numbers: &[u32], frame: Frame, st: State, i: u8) -> State
    requires { (length sets.now ≡ 384) × (length numbers.now ≡ 1220) × (i < 64) × (st.steps.count < 32)
        × (duration_at numbers.now i ≤ 255) × (duration_at numbers.now i ≤ st.minute) × Small 32 st.uses }
    ensures { Taken sets.now numbers.now frame.handovers st i result }
{
    let handovers = frame.handovers;
    let start = start_of(numbers, i, st.minute);
    let minute = minute::wide(st.minute);
    let steps = st.steps;
    let again = facts::common(
        st.at.added,
        sets[i as usize * SetTable::ROW + SetTable::ADDS],
    );
    State {
        steps: steps.push(i, start),
        minute: st.minute,
        wanted: st.wanted,
        at: minute::joined(sets, numbers, st.at, minute, i, start),
        uses: amounts::joined(numbers, handovers, st.uses, minute, i, start),
        twice: facts::union(st.twice, again),
        since: st.since,
    }
}

// The later of the minute m and the start, where that is before t.
pub fn later_start(m: u16, start: u16, t: u16) -> u16
    requires { m < t }
    ensures { (m ≤ result) × (result < t) × (start < t → start ≤ result) }
{
    if start < t { m.max(start) } else { m }
}

// The latest of minute m and of the starts of chosen steps, each less the handover, before minute t. Less than 0 is 0.
fn last_start(steps: Steps, handover: u16, m: u16, t: u16) -> u16
    requires { (steps.count ≤ 32) × (m < t) }
    ensures { (m ≤ result) × (result < t) × NoStartBetween handover steps result t }
{
    let mut r = m;
    for start in &steps.starts[..steps.count] {
        r = later_start(r, start.saturating_sub(handover), t);
    }
    r
}

// The same, where the starts themselves are not later.
fn later_event(steps: Steps, handover: u8, m: u16, t: u16) -> u16
    requires { (steps.count ≤ 32) × (m < t) }
    ensures { (m ≤ result) × (result < t) × (NoStartBetween 0 steps m t → NoStartBetween handover steps result t) }
{
    if handover == 0 {
        return m;
    }
    last_start(steps, u16::from(handover), m, t)
}

// The last event of the chosen steps before minute t: a start, or a start less the handover of a pool. The first
// minute, where none is later.
pub fn event(steps: Steps, frame: Frame, t: u16) -> u16
    requires { (steps.count ≤ 32) × (frame.first < t) × (frame.pools ≤ 4) }
    ensures { (frame.first ≤ result) × (result < t) × NoEventBetween frame.handovers frame.pools steps result t }
{
    let handovers = frame.handovers; // a slice of the frame's own has all of the frame copied
    let mut m = last_start(steps, 0, frame.first, t);
    for k in 0..frame.pools {
        m = later_event(steps, handovers[k], m, t);
    }
    m
}

// What a step of action i adds, if it stops after minute s and by minute t.
fn gone_of(sets: &[u64], numbers: &[u32], i: u8, start: u16, s: u32, t: u32) -> u64
    requires { (length sets.now ≡ 384) × (length numbers.now ≡ 1220) × (i < 64)
        × (duration_at numbers.now i ≤ 255) }
    ensures { GoneOf sets.now numbers.now i start s t result }
{
    let stop = minute::stop(numbers, i, start);
    facts::when(
        (s < stop) & (stop <= t),
        sets[i as usize * SetTable::ROW + SetTable::ADDS],
    )
}

// What the chosen steps add that stop after minute s and by minute t.
pub fn gone(sets: &[u64], numbers: &[u32], actions: usize, steps: Steps, s: u32, t: u32) -> u64
    requires { Lent sets.now numbers.now actions × Known actions steps }
    ensures { Gone sets.now numbers.now actions steps s t result }
{
    union::over(steps, |i, start| gone_of(sets, numbers, i, start, s, t))
}

// The state at minute s, the event before. Not inlined: so it takes no stack in the levels of the search.
#[inline(never)]
pub fn back(sets: &[u64], numbers: &[u32], frame: Frame, st: State, s: u16) -> State
    requires { Lent sets.now numbers.now frame.actions × Known frame.actions st.steps }
    ensures { Back sets.now numbers.now frame s st result }
{
    let steps = st.steps;
    let minute = minute::wide(s);
    let at = minute::look(sets, numbers, frame.actions, steps, minute);
    let added = gone(
        sets,
        numbers,
        frame.actions,
        steps,
        minute,
        minute::wide(st.minute),
    );
    State {
        steps: steps,
        minute: s,
        wanted: facts::union(facts::difference(st.wanted, added), at.needed),
        at: at,
        uses: amounts::look(numbers, frame, steps, minute),
        twice: 0,
        since: steps.count,
    }
}
