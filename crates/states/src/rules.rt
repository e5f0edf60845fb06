// Which actions may stop at the state's minute.
ghost use Rattle.std.specs.Prelude.{◌≡◌, true, false, ℕ, ◌+◌, ◌≤◌, ◌<◌, length};
ghost use Rattle.facts.specs.FactSet.{has};
ghost use Rattle.tables.specs.Tables.{Numbers};
ghost use Rattle.states.specs.States.{Safe, BarredBy, SetsAllow, TellsNew, MayStop, WithCandidate, Candidates};

use crate::state::State;
use crate::{amounts, beside, minute};
use facts::members::Members;
use job::Job;
use tables::Frame;
use tables::layout::{NumberTable, SetTable};
use tables::longer::longer;
use timeline::Plan;

// Whether the sets of action i allow it to stop now: it adds a wanted fact that no other step provides, deletes none,
// and clashes with no step that runs in the minute before.
fn sets_allow(sets: &[u64], st: State, i: u8) -> bool
    requires { (length sets.now ≡ 384) × (i < 64) }
    ensures { SetsAllow sets.now st i result }
{
    let at = i as usize * SetTable::ROW;
    if !facts::meets(sets[at + SetTable::ADDS], st.wanted) {
        return false;
    }
    if facts::meets(sets[at + SetTable::CLASHES], st.at.running) {
        return false;
    }
    let provided = facts::union(facts::union(st.at.held, st.at.added), sets[at]);
    if !facts::meets(
        facts::difference(sets[at + SetTable::ADDS], provided),
        st.wanted,
    ) {
        return false;
    }
    !facts::meets(sets[at + SetTable::DELETES], st.wanted)
}

// Whether the step of action i that stops at the state's minute is new: it starts after the first free minute, or at it
// with a number that is not below the least.
fn new_step(numbers: &[u32], frame: Frame, st: State, i: u8) -> bool
    requires { Numbers numbers.now frame.actions × (i < frame.actions) }
    ensures { TellsNew numbers.now frame st i result }
{
    let minute = minute::wide(st.minute);
    let stop = minute::stop(numbers, i, frame.first);
    if stop == minute {
        return frame.least <= i;
    }
    stop < minute
}

// Whether nothing keeps action i from stopping a minute later.
fn movable(sets: &[u64], numbers: &[u32], frame: Frame, st: State, i: u8) -> bool
    requires { Safe sets.now numbers.now frame st × (i < frame.actions) }
    ensures { result ≡ true → BarredBy sets.now numbers.now frame st i }
{
    let at = i as usize * SetTable::ROW;
    if frame.horizon <= st.minute {
        return false;
    }
    if facts::meets(sets[at + SetTable::ADDS], st.at.needed) {
        return false;
    }
    if facts::meets(sets[at + SetTable::CLASHES], st.at.starting) {
        return false;
    }
    let sums = st.uses.now;
    let available = frame.available;
    !amounts::exceeds(
        numbers,
        i as usize * NumberTable::ROW + NumberTable::POOLS,
        sums,
        available,
        frame.pools,
    )
}

// Whether action i leaves the pools and stores enough.
fn affordable(sets: &[u64], numbers: &[u32], frame: Frame, st: State, i: u8) -> bool
    requires { Safe sets.now numbers.now frame st × (i < frame.actions) × (0 < st.minute) }
    ensures { result ≡ false → BarredBy sets.now numbers.now frame st i }
{
    let at = i as usize * NumberTable::ROW;
    let before = st.uses.before;
    let available = frame.available;
    if amounts::exceeds(
        numbers,
        at + NumberTable::POOLS,
        before,
        available,
        frame.pools,
    ) {
        return false;
    }
    let spent = st.uses.spent;
    let stocks = frame.stocks;
    !amounts::exceeds(
        numbers,
        at + NumberTable::STORES,
        spent,
        stocks,
        frame.stores,
    )
}

// Whether action i may stop at the state's minute.
fn may_stop(sets: &[u64], numbers: &[u32], frame: Frame, st: State, i: u8) -> bool
    requires { Safe sets.now numbers.now frame st × (i < frame.actions) × (0 < st.minute) }
    ensures { MayStop sets.now numbers.now frame st i result }
{
    if !sets_allow(sets, st, i) {
        return false;
    }
    if Plan::STEPS <= st.steps.count {
        return false;
    }
    if !new_step(numbers, frame, st, i) {
        return false;
    }
    if movable(sets, numbers, frame, st, i) {
        return false;
    }
    if !affordable(sets, numbers, frame, st, i) {
        return false;
    }
    beside::beside_kept(sets, numbers, frame, st, i)
}

// The set with action k, if that may stop at the state's minute.
fn with_candidate(sets: &[u64], numbers: &[u32], frame: Frame, st: State, k: u8, set: u64) -> u64
    requires { Safe sets.now numbers.now frame st × (k < 64) × (0 < st.minute) }
    ensures { WithCandidate sets.now numbers.now frame st k set result }
{
    if frame.actions <= k as usize {
        return set;
    }
    if !may_stop(sets, numbers, frame, st, k) {
        return set;
    }
    facts::union(facts::single(k), set)
}

// Those of the undecided actions that may stop at the state's minute. Not inlined, as `moves::back`.
#[inline(never)]
pub fn candidates(sets: &[u64], numbers: &[u32], frame: Frame, st: State, undecided: u64) -> u64
    requires { Safe sets.now numbers.now frame st × (0 < st.minute) }
    ensures { Candidates sets.now numbers.now frame st undecided 64 result }
{
    let mut found: u64 = 0;
    for k in Members::of(undecided) {
        found = with_candidate(sets, numbers, frame, st, k, found);
    }
    found
}

// The numbers of all actions of the job, none of them decided.
pub fn all(actions: usize) -> u64
    requires { actions ≤ 64 }
    ensures { (a : ℕ) → a < actions → has result a ≡ true }
{
    if actions == 0 {
        return 0;
    }
    facts::ALL >> (Job::ACTIONS - actions)
}

// The candidate to take first: the longest, of equally long ones the last. Any would do; with this one the order of the
// file's actions matters least (docs/DECISIONS.md).
pub fn pick(numbers: &[u32], left: u64) -> u8
    requires { (length numbers.now ≡ 1220) × (0 < left) }
    ensures { (result < 64) × (has left result ≡ true) }
{
    let mut longest = facts::next(left, 0);
    for k in Members::of(left) {
        longest = longer(numbers, 0, NumberTable::ROW, k, longest);
    }
    longest
}
