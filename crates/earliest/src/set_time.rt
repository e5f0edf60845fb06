// The time of a set of facts, from a table of earliest times.
ghost use Rattle.std.specs.Prelude.{◌≡◌, false, suc, ◌≤◌, ◌<◌, length};
ghost use Rattle.earliest.specs.Numbers.{row_number, set_number, SameTime, UpTo};

use job::Action;
use pairs::Pair;

// The number that stands for unreachable.
pub const NONE: u32 = 4_294_967_295;

// No finite entry is later: the longest duration for each of the entries.
pub const LATEST: u32 = Action::DURATION as u32 * Pair::COUNT as u32;

// The latest of the entries of a fact with the facts of the set up to it, None where one is later than the limit.
fn row_up_to(table: &[u32], set: u64, high: u8, limit: u32) -> Option<u32>
    requires { (length table.now ≡ 2080) × (high < 64) }
    ensures { UpTo limit result (row_number table.now set high (suc high)) }
{
    let first = pairs::entry(0, high);
    let mut latest = 0;
    let mut left = set;
    let mut low = facts::next(left, 0);
    while low <= high {
        let time = table[first + low as usize];
        if limit < time {
            return None;
        }
        latest = latest.max(time);
        left = facts::difference(left, facts::single(low));
        low = facts::next(left, 0);
    }
    Some(latest)
}

// The latest of the entries of the facts of a set, None where one is later than the limit.
fn latest_up_to(table: &[u32], facts: u8, set: u64, limit: u32) -> Option<u32>
    requires { (length table.now ≡ 2080) × (facts ≤ 64) }
    ensures { UpTo limit result (set_number table.now set facts) }
{
    let mut latest = 0;
    let mut left = set;
    let mut high = facts::next(left, 0);
    while high < facts {
        let time = row_up_to(table, set, high, limit)?;
        latest = latest.max(time);
        left = facts::difference(left, facts::single(high));
        high = facts::next(left, 0);
    }
    Some(latest)
}

// The time of a set.
pub fn set_time(table: &[u32], facts: u8, set: u64) -> u32
    requires { (length table.now ≡ 2080) × (facts ≤ 64) }
    ensures { SameTime result (set_number table.now set facts) }
{
    latest_up_to(table, facts, set, LATEST).unwrap_or(NONE)
}

// Whether the time of a set is at most the limit. It says no at the first entry that is later: the search asks often.
pub fn by(table: &[u32], facts: u8, set: u64, limit: u32) -> bool
    requires { (length table.now ≡ 2080) × (facts ≤ 64) }
    ensures { result ≡ false → limit < set_number table.now set facts }
{
    latest_up_to(table, facts, set, limit).is_some()
}
