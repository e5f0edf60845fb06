// Openings: for each pool a minute before which no plan uses it, the earliest at which what one of its users needs can
// be there. One number for each pool, behind the shares.
ghost use Rattle.std.specs.Prelude.{◌≡◌, ◌≤◌, ◌<◌, length};
ghost use Rattle.landmarks.specs.Marked.{WithinLimits};
ghost use Rattle.landmarks.specs.Openings.{OpenTo, OpeningsPut};

use earliest::set_time;
use job::Job;
use tables::Frame;
use tables::layout::{NumberTable, SetTable};

// The earliest time of what an action needs that uses the pool.
fn opening(sets: &[u64], numbers: &[u32], times: &[u32], frame: Frame, pool: usize) -> u32
    requires { (length sets.now ≡ 384) × (length numbers.now ≡ 1220) × WithinLimits times.now frame
        × (pool < 4) }
    ensures { OpenTo sets.now numbers.now times.now frame
        frame.actions pool result }
{
    let mut best = set_time::LATEST;
    for i in 0..frame.actions {
        if numbers[i * NumberTable::ROW + NumberTable::POOLS + pool] != 0 {
            best = best.min(set_time::set_time(times, frame.facts, sets[i * SetTable::ROW]));
        }
    }
    best
}

// Puts the opening of each pool.
pub fn fill(numbers: &mut [u32], sets: &[u64], times: &[u32], frame: Frame)
    requires { (length sets.now ≡ 384) × (length numbers.old ≡ 1220) × WithinLimits times.now frame }
    ensures { OpeningsPut sets.now times.now frame 4
        numbers.old numbers.new }
{
    for pool in 0..Job::POOLS {
        numbers[NumberTable::OPENINGS + pool] = opening(sets, numbers, times, frame, pool);
    }
}
