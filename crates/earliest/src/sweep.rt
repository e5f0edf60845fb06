// Sweeps over all choices, until no entry falls.
ghost use Rattle.std.specs.Prelude.{◌≡◌, ◌≤◌, ◌<◌, length, replicate};
ghost use Rattle.times.specs.Numbers.{none};
ghost use Rattle.earliest.specs.Extra.{with_extra, AllFit};
ghost use Rattle.earliest.specs.Sweep.{LowersJoined, LowersEach, LowersAction, Sweeps, Filled, IsAction};

use crate::extra::{Extra, action_of, count_of};
use crate::{allowed, choices, set_time, start};
use job::{Action, Job};

// Choice (iii) with actions i and j, where they are one, i the longer.
fn add_pair(
    table: &mut [u32],
    facts: u8,
    pools: usize,
    available: [u32; Job::POOLS],
    i: usize,
    j: usize,
    a: Action,
    b: Action,
) -> bool
    requires { (length table.old ≡ 2080) × (facts ≤ 64) × (pools ≤ 4) }
    ensures { (length table.new ≡ 2080)
        × LowersJoined facts pools available i j a b table.old table.new result }
{
    if !allowed::may_join(pools, available, i, j, a, b) {
        return false;
    }
    choices::add_each(table, facts, a, b)
}

// Choice (iii) with action i, which is a, as the longer one. The other is picked here: a call of action_of would copy
// the job for each.
fn add_each_with(table: &mut [u32], job: Job, extra: Extra, i: usize, a: Action) -> bool
    requires { (length table.old ≡ 2080) × AllFit job extra
        × IsAction (with_extra job extra) job.facts i job.counts a }
    ensures { (length table.new ≡ 2080)
        × LowersEach (with_extra job extra) i table.old table.new result }
{
    let counts = job.counts;
    let available = job.pools;
    let count = count_of(job, extra);
    let mut changed = false;
    for j in 0..count {
        let b = if j < counts.actions {
            job.actions[j]
        } else {
            extra.actions[j - counts.actions]
        };
        changed = add_pair(table, job.facts, counts.pools, available, i, j, a, b) | changed;
    }
    changed
}

// All choices with action i.
fn by_action(table: &mut [u32], job: Job, extra: Extra, i: usize) -> bool
    requires { (length table.old ≡ 2080) × AllFit job extra × (i < length (with_extra job extra).actions) }
    ensures { (length table.new ≡ 2080)
        × LowersAction (with_extra job extra) i table.old table.new result }
{
    let counts = job.counts;
    let available = job.pools;
    let action = action_of(job, extra, i);
    if !allowed::fits_alone(counts.pools, available, action) {
        return false;
    }
    if choices::end(table, job.facts, action) == set_time::NONE {
        return false;
    }
    let both = choices::add_both(table, job.facts, action);
    let one = choices::add_one(table, job.facts, action);
    let each = add_each_with(table, job, extra, i, action);
    each | (one | both)
}

// One sweep over all choices. Whether an entry fell.
fn sweep(table: &mut [u32], job: Job, extra: Extra) -> bool
    requires { (length table.old ≡ 2080) × AllFit job extra }
    ensures { (length table.new ≡ 2080)
        × Sweeps (with_extra job extra) table.old table.new result }
{
    let count = count_of(job, extra);
    let mut changed = false;
    for i in 0..count {
        changed = by_action(table, job, extra, i) | changed;
    }
    changed
}

// Turns a table in which all is unreachable into the earliest times of the job with the actions behind its own.
pub fn fill(table: &mut [u32], job: Job, extra: Extra)
    requires { (table.old ≡ replicate 2080 none) × AllFit job extra }
    ensures { Filled (with_extra job extra) table.new }
{
    start::begin(table, job.facts, job.start);
    let mut changed = true;
    while changed {
        changed = sweep(table, job, extra);
    }
}
