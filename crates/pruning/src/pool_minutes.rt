// The minutes of a pool: what there is of it between two minutes, and what the chosen steps use of that,
// each minute for itself.
ghost use Rattle.std.specs.Prelude.{◌≡◌, ◌+◌, ◌*◌, ◌-◌, ◌^◌, ◌≤◌, ◌<◌, min, max, length};
ghost use Rattle.tables.specs.Tables.{Numbers, Known, duration_at, pool_use_at};
ghost use Rattle.landmarks.specs.Openings.{open_at};
ghost use Rattle.pruning.specs.Missing.{UsedBefore};

use states::minute;
use tables::Steps;
use tables::layout::NumberTable;

// The minute at which a pool opens, where the table counts from the origin.
pub fn opening(numbers: &[u32], pool: usize, origin: u16) -> u64
    requires { (length numbers.now ≡ 1220) × (pool < 4) }
    ensures { result ≡ open_at numbers.now pool + origin }
{
    u64::from(numbers[NumberTable::OPENINGS + pool]) + u64::from(origin)
}

// What there is of a pool from a minute up to t.
pub fn supply(amount: u32, from: u64, t: u64) -> u64
    requires { t < 65536 }
    ensures { (result ≡ amount * (t - from)) × (result ≤ 2 ^ 48) }
{
    u64::from(amount) * t.saturating_sub(from)
}

// What a step of action i uses of the pool from a minute on and before t.
fn used_by(numbers: &[u32], i: u8, start: u16, pool: usize, from: u64, t: u64) -> u64
    requires { (length numbers.now ≡ 1220) × (i < 64) × (duration_at numbers.now i ≤ 255) × (pool < 4) }
    ensures { (result ≡ pool_use_at numbers.now i pool
        * (min (start + duration_at numbers.now i) t - max start from)) × (result ≤ 2 ^ 40) }
{
    let stop = u64::from(minute::stop(numbers, i, start));
    let minutes = stop.min(t).saturating_sub(from.max(u64::from(start)));
    u64::from(numbers[i as usize * NumberTable::ROW + NumberTable::POOLS + pool]) * minutes
}

// What the chosen steps use of the pool from a minute on and before t.
pub fn used(numbers: &[u32], actions: usize, steps: Steps, pool: usize, from: u64, t: u64) -> u64
    requires { Numbers numbers.now actions × Known actions steps × (pool < 4) }
    ensures { UsedBefore numbers.now actions steps pool from t steps.count result × (result ≤ 2 ^ 45) }
{
    let mut all: u64 = 0;
    for k in 0..steps.count {
        all += used_by(numbers, steps.numbers[k], steps.starts[k], pool, from, t);
    }
    all
}
