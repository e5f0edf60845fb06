// Whether an action may run beside the steps of a day already begun.
ghost use Rattle.std.specs.Prelude.{◌≡◌, false, ℕ, ◌+◌, ◌≤◌, ◌<◌, length, get_or};
ghost use Rattle.states.specs.Amounts.{Sums, ExceededUntil};
ghost use Rattle.states.specs.States.{Safe, BarredBy};

use crate::state::State;
use crate::{amounts, minute};
use job::Job;
use tables::Frame;
use tables::layout::{NumberTable, SetTable};

// Whether one of the handovers after `until` is later than the minute.
fn waits(handovers: &[u8], until: u32, minute: u32) -> bool
    requires { until < 131072 }
    ensures { result ≡ false → (pool : ℕ) → pool < length handovers.now → until + get_or handovers.now pool 0 ≤ minute }
{
    handovers
        .iter()
        .any(|handover| minute < until + u32::from(*handover))
}

// Whether the pools have enough for action i beside the sums: each pool whose handover after `until` is later than the
// minute.
fn enough(
    numbers: &[u32],
    frame: Frame,
    i: u8,
    sums: [u64; Job::POOLS],
    until: u32,
    minute: u32,
) -> bool
    requires { (length numbers.now ≡ 1220) × (i < 64) × (frame.pools ≤ 4) × Sums 32 sums × (until < 131072) }
    ensures { result ≡ false → ExceededUntil numbers.now frame i sums until minute }
{
    let handovers = frame.handovers;
    let available = frame.available;
    let at = i as usize * NumberTable::ROW + NumberTable::POOLS;
    for k in 0..frame.pools {
        let shared = minute < until + u32::from(handovers[k]);
        if shared && u64::from(available[k]) < sums[k] + u64::from(numbers[at + k]) {
            return false;
        }
    }
    true
}

// Whether action i, should it stop at the state's minute, may run beside the chosen step at place k. Where that step
// stops after the start of action i and before the state's minute, both run in its last minute: they must not clash.
// In the last minute of each of its shares, where the action has its own, the pool must have enough for all that are in
// use then. A step that stops later is left to the state's other rules.
fn beside(sets: &[u64], numbers: &[u32], frame: Frame, st: State, i: u8, k: usize) -> bool
    requires { Safe sets.now numbers.now frame st × (i < frame.actions) × (k < st.steps.count) }
    ensures { result ≡ false → BarredBy sets.now numbers.now frame st i }
{
    let steps = st.steps;
    let number = steps.numbers[k];
    let minute = minute::wide(st.minute);
    let stop = minute::stop(numbers, number, steps.starts[k]);
    if minute <= stop {
        return true;
    }
    let last = stop + numbers[i as usize * NumberTable::ROW];
    if (minute < last) & facts::has(sets[i as usize * SetTable::ROW + SetTable::CLASHES], number) {
        return false;
    }
    if !waits(&frame.handovers[..frame.pools], last, minute) {
        return true;
    }
    let uses = amounts::look(numbers, frame, steps, stop);
    let before = uses.before;
    enough(numbers, frame, i, before, last, minute)
}

// Whether action i may run beside each kept step; these are the first of the chosen ones.
pub fn beside_kept(sets: &[u64], numbers: &[u32], frame: Frame, st: State, i: u8) -> bool
    requires { Safe sets.now numbers.now frame st × (i < frame.actions) }
    ensures { result ≡ false → BarredBy sets.now numbers.now frame st i }
{
    (0..frame.kept.count.min(st.steps.count)).all(|k| beside(sets, numbers, frame, st, i, k))
}
