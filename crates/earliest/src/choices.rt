// The choices by which two facts come about: one action, or two that run together.
ghost use Rattle.std.specs.Prelude.{◌≡◌, ◌≤◌, ◌<◌, length};
ghost use Rattle.earliest.specs.Numbers.{after_number};
ghost use Rattle.earliest.specs.Sweep.{EndsAt, LowersBoth, LowersCarried, LowersOne, LowersPair};

use crate::{lower, set_time};
use job::Action;

// So many minutes after a time.
fn after(minutes: u8, time: u32) -> u32
    ensures { (result ≡ after_number minutes time) × (minutes < 256) }
{
    if set_time::LATEST < time {
        return set_time::NONE;
    }
    u32::from(minutes) + time
}

// When an action ends that starts as soon as its needs are there.
pub fn end(table: &[u32], facts: u8, action: Action) -> u32
    requires { (length table.now ≡ 2080) × (facts ≤ 64) }
    ensures { EndsAt facts action table.now result }
{
    after(
        action.duration,
        set_time::set_time(table, facts, action.needs),
    )
}

// Choice (i): the action adds both facts.
pub fn add_both(table: &mut [u32], facts: u8, action: Action) -> bool
    requires { (length table.old ≡ 2080) × (facts ≤ 64) }
    ensures { (length table.new ≡ 2080)
        × LowersBoth facts action table.old table.new result }
{
    let time = end(table, facts, action);
    lower::lower_all(table, facts, action.adds, action.adds, time)
}

// Choice (ii): the action adds one fact, and fact q holds from its start on, unless the action adds or deletes it.
fn carry(table: &mut [u32], facts: u8, action: Action, q: u8) -> bool
    requires { (length table.old ≡ 2080) × (facts ≤ 64) × (q < 64) }
    ensures { (length table.new ≡ 2080)
        × LowersCarried facts action q table.old table.new result }
{
    if facts::has(facts::union(action.adds, action.deletes), q) {
        return false;
    }
    let set = facts::union(action.needs, facts::single(q));
    let ready = set_time::set_time(table, facts, set);
    lower::lower_row(table, facts, q, action.adds, after(action.duration, ready))
}

// Choice (ii) for each fact.
pub fn add_one(table: &mut [u32], facts: u8, action: Action) -> bool
    requires { (length table.old ≡ 2080) × (facts ≤ 64) }
    ensures { (length table.new ≡ 2080)
        × LowersOne facts action table.old table.new result }
{
    let mut changed = false;
    for q in 0..facts {
        changed = carry(table, facts, action, q) | changed;
    }
    changed
}

// Choice (iii): the longer action a adds one fact, and b the other, unless one of them adds both.
pub fn add_each(table: &mut [u32], facts: u8, a: Action, b: Action) -> bool
    requires { (length table.old ≡ 2080) × (facts ≤ 64) }
    ensures { (length table.new ≡ 2080)
        × LowersPair facts a b table.old table.new result }
{
    let only_a = facts::difference(a.adds, b.adds);
    let only_b = facts::difference(b.adds, a.adds);
    if (only_a == 0) | (only_b == 0) {
        return false;
    }
    let both_ready = set_time::set_time(table, facts, facts::union(a.needs, b.needs));
    if set_time::LATEST < both_ready {
        return false;
    }
    let time = timeline::later(end(table, facts, a), after(b.duration, both_ready));
    lower::lower_all(table, facts, only_a, only_b, time)
}
