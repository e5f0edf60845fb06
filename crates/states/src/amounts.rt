// What the chosen steps use of pools and stores.
ghost use Rattle.std.specs.Prelude.{◌≡◌, Bool, false, cond, ◌&&◌, ℕ, ◌+◌, ◌^◌, ◌≤◌, ◌<◌, ltb, length, get_or};
ghost use Rattle.tables.specs.Tables.{duration_at, Known, Numbers};
ghost use Rattle.states.specs.Amounts.{Sums, Added, Small, UsesNothing, JoinsUses, LooksUses, exceeds};

use crate::minute;
use job::Job;
use tables::layout::NumberTable;
use tables::{Frame, Steps};

// What the chosen steps use: of each pool in the minute before and in the minute now, and of each store over all.
#[derive(Clone, Copy)]
pub struct Uses {
    pub before: [u64; Job::POOLS],
    pub now: [u64; Job::POOLS],
    pub spent: [u64; Job::STORES],
}

// An amount of 32 bits as a number of 64, where it counts.
fn amount(counts: bool, number: u32) -> u64
    ensures { (result ≡ cond counts number 0) × (result < 2 ^ 32) }
{
    if counts { u64::from(number) } else { 0 }
}

// Whether shares of some pool stay in use after their steps.
fn waits(handovers: [u8; Job::POOLS]) -> bool
    ensures { result ≡ false → (pool : ℕ) → pool < 4 → get_or handovers pool 0 ≡ 0 }
{
    handovers.iter().any(|minutes| 0 < *minutes)
}

// The sums with the table's four amounts from place `at` on, each where it counts.
fn plus<F: Fn(usize) -> bool>(
    numbers: &[u32],
    at: usize,
    counts: F,
    sums: [u64; Job::AMOUNTS],
) -> [u64; Job::AMOUNTS]
    requires fits { (at + 4 ≤ length numbers.now) × (length numbers.now ≤ 1220) × Sums 32 sums }
    requires asked { (k : ℕ) → k < 4 → F.pre counts k }
    ensures { (test : ℕ → Bool) → ((k : ℕ) (b : Bool) → k < 4 → F.post counts k b → b ≡ test k)
        → Added numbers.now at test sums result }
{
    let mut out = sums;
    for k in 0..Job::AMOUNTS {
        out[k] = amount(counts(k), numbers[at + k]) + out[k];
    }
    out
}

// The sums with the step's shares, if it runs: of each pool whose limit is after the start, put off by the handover.
fn with_shares(
    numbers: &[u32],
    at: usize,
    from: u32,
    limit: u32,
    runs: bool,
    handovers: [u8; Job::POOLS],
    sums: [u64; Job::POOLS],
) -> [u64; Job::POOLS]
    requires { (at + 4 ≤ length numbers.now) × (length numbers.now ≤ 1220) × Sums 32 sums × (limit ≤ 65536) }
    ensures { Added numbers.now at (λ k. runs && ltb from (limit + get_or handovers k 0)) sums result }
{
    if runs & (limit <= from) & waits(handovers) {
        return plus(
            numbers,
            at,
            |k| from < limit + u32::from(handovers[k]),
            sums,
        );
    }
    let counts = runs & (from < limit);
    plus(numbers, at, |_| counts, sums)
}

// What is used with one more step of an action.
pub fn joined(
    numbers: &[u32],
    handovers: [u8; Job::POOLS],
    uses: Uses,
    t: u32,
    i: u8,
    start: u16,
) -> Uses
    requires { (length numbers.now ≡ 1220) × (i < 64) × (duration_at numbers.now i ≤ 255) × Small 32 uses
        × (t < 65536) }
    ensures { JoinsUses numbers.now handovers t i start uses result }
{
    let at = i as usize * NumberTable::ROW;
    let from = minute::wide(start);
    let stop = minute::stop(numbers, i, start);
    let before = uses.before;
    let now = uses.now;
    let spent = uses.spent;
    let more_before = with_shares(
        numbers,
        at + NumberTable::POOLS,
        from,
        t,
        t <= stop,
        handovers,
        before,
    );
    let more_now = with_shares(
        numbers,
        at + NumberTable::POOLS,
        from,
        t + 1,
        t < stop,
        handovers,
        now,
    );
    let more_spent = plus(numbers, at + NumberTable::STORES, |_| true, spent);
    Uses {
        before: more_before,
        now: more_now,
        spent: more_spent,
    }
}

// Nothing is used.
fn none() -> Uses
    ensures { UsesNothing result }
{
    Uses {
        before: [0u64; Job::POOLS],
        now: [0u64; Job::POOLS],
        spent: [0u64; Job::STORES],
    }
}

// What the chosen steps use.
pub fn look(numbers: &[u32], frame: Frame, steps: Steps, t: u32) -> Uses
    requires { Numbers numbers.now frame.actions × Known frame.actions steps × (t < 65536) }
    ensures { LooksUses numbers.now frame.handovers frame.actions steps t result }
{
    let handovers = frame.handovers;
    let mut uses = none();
    for k in 0..steps.count {
        uses = joined(
            numbers,
            handovers,
            uses,
            t,
            steps.numbers[k],
            steps.starts[k],
        );
    }
    uses
}

// Whether the sums and the table's amounts from place `at` on are over one of the first limits.
pub fn exceeds(
    numbers: &[u32],
    at: usize,
    sums: [u64; Job::AMOUNTS],
    limits: [u32; Job::AMOUNTS],
    count: usize,
) -> bool
    requires { (at + 4 ≤ length numbers.now) × (length numbers.now ≤ 1220) × Sums 32 sums × (count ≤ 4) }
    ensures { result ≡ exceeds numbers.now at sums limits count }
{
    for k in 0..count {
        if u64::from(limits[k]) < sums[k] + u64::from(numbers[at + k]) {
            return true;
        }
    }
    false
}
