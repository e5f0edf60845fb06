// Entries of a table lowered to a time, where they are later.
ghost use Rattle.std.specs.Prelude.{◌≡◌, min, max, ◌≤◌, ◌<◌, length};
ghost use Rattle.pairs.specs.Pairs.{entry_of};
ghost use Rattle.earliest.specs.Lowering.{LowersEntry, LowersRow, LowersAll};

use crate::set_time;

// The entry of two facts, in either order.
fn place(p: u8, q: u8) -> usize
    requires { (p < 64) × (q < 64) }
    ensures { (result ≡ entry_of (min p q) (max p q)) × (result < 2080) }
{
    pairs::entry(p.min(q), p.max(q))
}

// Lowers the entry of two facts. Whether it was later.
fn lower(table: &mut [u32], p: u8, q: u8, time: u32) -> bool
    requires { (length table.old ≡ 2080) × (p < 64) × (q < 64) }
    ensures { (length table.new ≡ 2080)
        × LowersEntry table.old table.new p q time result }
{
    let at = place(p, q);
    if table[at] <= time {
        return false;
    }
    table[at] = time;
    true
}

// Lowers the entries of a fact with the facts of a set. Whether one was later.
pub fn lower_row(table: &mut [u32], facts: u8, p: u8, set: u64, time: u32) -> bool
    requires { (length table.old ≡ 2080) × (facts ≤ 64) × (p < 64) }
    ensures { (length table.new ≡ 2080)
        × LowersRow facts table.old table.new p set time result }
{
    if time == set_time::NONE {
        return false;
    }
    let mut changed = false;
    let mut q = facts::next(set, 0);
    while q < facts {
        changed = lower(table, p, q, time) | changed;
        q = facts::next(set, q + 1);
    }
    changed
}

// Lowers the entries of the facts of one set with those of another. Whether one was later.
pub fn lower_all(table: &mut [u32], facts: u8, set: u64, other: u64, time: u32) -> bool
    requires { (length table.old ≡ 2080) × (facts ≤ 64) }
    ensures { (length table.new ≡ 2080)
        × LowersAll facts table.old table.new set other time result }
{
    if time == set_time::NONE {
        return false;
    }
    let mut changed = false;
    let mut p = facts::next(set, 0);
    while p < facts {
        changed = lower_row(table, facts, p, other, time) | changed;
        p = facts::next(set, p + 1);
    }
    changed
}
