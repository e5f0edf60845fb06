// Tests of what is missing: whether enough is left for the landmarks of what must hold at a state's minute.
ghost use Rattle.std.specs.Prelude.{◌≡◌, List, ℕ, ◌*◌, ◌^◌, ◌≤◌, ◌<◌, length};
ghost use Rattle.states.specs.States.{Safe};
ghost use Rattle.states.specs.Amounts.{Sums};
ghost use Rattle.pruning.specs.Missing.{Fresh, Missing, DeadUnlessSuffices, fits};
ghost use Rattle.tables.specs.Tables.{Numbers, Known};

use crate::pool_minutes;
use job::Job;
use landmarks::{marks, shares};
use states::state::State;
use tables::Frame;
use tables::layout::NumberTable;
use timeline::Plan;

// The most steps of a plan.
const STEPS: u64 = Plan::STEPS as u64;

// Whether the row's shares of a set, and what is used besides, are at most so much.
fn fits(numbers: &[u32], row: usize, missing: u64, used: u64, most: u64) -> bool
    requires { (length numbers.now ≡ 1220) × (row < 9) × (used ≤ 2 ^ 46) × (most ≤ 2 ^ 48) }
    ensures { result ≡ fits numbers.now row missing used most }
{
    let at = NumberTable::SHARES + row * NumberTable::SHARE_ROW;
    shares::sum(numbers, at, missing) + shares::SCALE * used <= shares::SCALE * most
}

// Whether the stores have enough left for what is missing.
fn stores_suffice(numbers: &[u32], frame: Frame, st: State, missing: u64) -> bool
    requires { (length numbers.now ≡ 1220) × (frame.stores ≤ 4) × Sums 32 st.uses.spent × Fresh st
        × (frame.first ≤ st.minute) }
    ensures { (sets : List ℕ) → Missing sets frame st missing
        → DeadUnlessSuffices sets numbers.now frame st result }
{
    let spent = st.uses.spent;
    let stocks = frame.stocks;
    for k in 0..frame.stores {
        let stock = u64::from(stocks[k]);
        if !fits(numbers, k, missing, spent[k], stock) {
            return false;
        }
    }
    true
}

// Whether the pools have minutes enough left for what is missing.
fn pools_suffice(numbers: &[u32], frame: Frame, st: State, missing: u64) -> bool
    requires { Numbers numbers.now frame.actions × Known frame.actions st.steps × (frame.pools ≤ 4)
        × Fresh st × (frame.first ≤ st.minute) }
    ensures { (sets : List ℕ) → Missing sets frame st missing
        → DeadUnlessSuffices sets numbers.now frame st result }
{
    let steps = st.steps;
    let available = frame.available;
    let t = u64::from(st.minute);
    for k in 0..frame.pools {
        let from = pool_minutes::opening(numbers, k, frame.origin);
        let used = pool_minutes::used(numbers, frame.actions, steps, k, from, t);
        let most = pool_minutes::supply(available[k], from, t);
        if !fits(numbers, Job::STORES + k, missing, used, most) {
            return false;
        }
    }
    true
}

// Whether enough steps are left for what is missing.
fn steps_suffice(numbers: &[u32], frame: Frame, st: State, missing: u64) -> bool
    requires { (length numbers.now ≡ 1220) × (st.steps.count ≤ 32) × Fresh st × (frame.first ≤ st.minute) }
    ensures { (sets : List ℕ) → Missing sets frame st missing
        → DeadUnlessSuffices sets numbers.now frame st result }
{
    let used = st.steps.count as u64;
    fits(numbers, NumberTable::STEPS_ROW, missing, used, STEPS)
}

// Whether there are minutes enough for what is missing and can only be added one after the other.
fn minutes_suffice(sets: &[u64], numbers: &[u32], frame: Frame, st: State, missing: u64) -> bool
    requires { (length sets.now ≡ 384) × (length numbers.now ≡ 1220) × (frame.first ≤ st.minute) × Fresh st }
    ensures { Missing sets.now frame st missing
        → DeadUnlessSuffices sets.now numbers.now frame st result }
{
    let minutes = cliques::minutes(sets, numbers, missing);
    minutes <= u64::from(st.minute - frame.first)
}

// Whether steps, stores, pools and minutes suffice for what is missing.
pub fn suffices(sets: &[u64], numbers: &[u32], frame: Frame, st: State) -> bool
    requires { Safe sets.now numbers.now frame st × Fresh st × (frame.first ≤ st.minute) }
    ensures { DeadUnlessSuffices sets.now numbers.now frame st result }
{
    let must = facts::union(st.wanted, st.at.across);
    let missing = facts::difference(marks::of_set(sets, must), frame.given);
    if !steps_suffice(numbers, frame, st, missing) {
        return false;
    }
    if !stores_suffice(numbers, frame, st, missing) {
        return false;
    }
    if !pools_suffice(numbers, frame, st, missing) {
        return false;
    }
    minutes_suffice(sets, numbers, frame, st, missing)
}
