// For each fact how many minutes at least pass from the stop of a step that adds it to the end of a plan that has a use
// for it. The table is found by any loop and held to a test; where that fails, every tail is 0.
#![tactic(auto)]

ghost use Rattle.std.specs.Prelude.{◌≡◌, true, ◌+◌, ◌≤◌, length};
ghost use Rattle.tables.specs.Tables.{Lent};
ghost use Rattle.tails.specs.Tails.{AtMostEach, EachAtMost, Through, ClosedAt, TailTable};

use job::Job;
use tables::layout::{NumberTable, SetTable};

// A tail for each fact.
pub const ENTRIES: usize = Job::FACTS as usize;

// More minutes than any day has.
const NEVER: u32 = 100_000;

// The least tail of the facts of a set, NEVER for none.
pub fn least(tails: &[u32], set: u64) -> u32
    requires { length tails.now ≡ 64 }
    ensures { (result ≤ 100000) × AtMostEach tails.now set result }
{
    let mut all = NEVER;
    let mut p = facts::next(set, 0);
    while p < facts::BITS {
        all = all.min(tails[usize::from(p)]);
        p = facts::next(set, p + 1);
    }
    all
}

// Whether no fact of the set has a longer tail.
fn none_over(tails: &[u32], set: u64, most: u32) -> bool
    requires { length tails.now ≡ 64 }
    ensures { result ≡ true → EachAtMost tails.now set most }
{
    let mut p = facts::next(set, 0);
    while p < facts::BITS {
        if most < tails[usize::from(p)] {
            return false;
        }
        p = facts::next(set, p + 1);
    }
    true
}

// How long action i lasts, and then the least tail of what it adds.
fn through(sets: &[u64], numbers: &[u32], tails: &[u32], i: usize) -> u32
    requires { Lent sets.now numbers.now (i + 1) × (length tails.now ≡ 64) }
    ensures { (result ≤ 100255) × Through sets.now numbers.now tails.now i result }
{
    let added = sets[i * SetTable::ROW + SetTable::ADDS];
    numbers[i * NumberTable::ROW] + least(tails, added)
}

// Whether the rule of tails holds for action i.
fn closed_at(sets: &[u64], numbers: &[u32], tails: &[u32], i: usize) -> bool
    requires { Lent sets.now numbers.now (i + 1) × (length tails.now ≡ 64) }
    ensures { result ≡ true → ClosedAt sets.now numbers.now tails.now i }
{
    let most = through(sets, numbers, tails, i);
    none_over(tails, sets[i * SetTable::ROW], most)
}

// Whether the tails are those for a goal.
fn closed(sets: &[u64], numbers: &[u32], tails: &[u32], actions: usize, goal: u64) -> bool
    requires { Lent sets.now numbers.now actions × (length tails.now ≡ 64) }
    ensures { result ≡ true
        → TailTable sets.now numbers.now actions goal tails.now }
{
    if !none_over(tails, goal, 0) {
        return false;
    }
    for i in 0..actions {
        if !closed_at(sets, numbers, tails, i) {
            return false;
        }
    }
    true
}

// Makes the tails of the facts of a set no longer than so much.
fn lower(tails: &mut [u32], set: u64, most: u32)
    requires { length tails.old ≡ 64 }
    ensures { length tails.new ≡ 64 }
{
    let mut p = facts::next(set, 0);
    while p < facts::BITS {
        let at = usize::from(p);
        tails[at] = tails[at].min(most);
        p = facts::next(set, p + 1);
    }
}

// Lowers the tails of what each action needs.
fn sweep(tails: &mut [u32], sets: &[u64], numbers: &[u32], actions: usize)
    requires { Lent sets.now numbers.now actions × (length tails.old ≡ 64) }
    ensures { length tails.new ≡ 64 }
{
    for i in 0..actions {
        let most = through(sets, numbers, tails, i);
        lower(tails, sets[i * SetTable::ROW], most);
    }
}

// Tails from those of the goal's facts on: in each sweep a tail falls, or no tail ever will.
fn find(tails: &mut [u32], sets: &[u64], numbers: &[u32], actions: usize, goal: u64)
    requires { Lent sets.now numbers.now actions × (length tails.old ≡ 64) }
    ensures { length tails.new ≡ 64 }
{
    tails.fill(NEVER);
    lower(tails, goal, 0);
    for _ in 0..ENTRIES {
        sweep(tails, sets, numbers, actions);
    }
}

// The tails for a goal.
pub fn fill(tails: &mut [u32], sets: &[u64], numbers: &[u32], actions: usize, goal: u64)
    requires { Lent sets.now numbers.now actions × (length tails.old ≡ 64) }
    ensures { TailTable sets.now numbers.now actions goal tails.new }
{
    find(tails, sets, numbers, actions, goal);
    if !closed(sets, numbers, tails, actions, goal) {
        tails.fill(0);
    }
}
