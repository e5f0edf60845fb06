// The least minutes of an action that adds a fact: one number for each fact, behind the openings.
ghost use Rattle.std.specs.Prelude.{◌≡◌, ◌≤◌, ◌<◌, length};
ghost use Rattle.cliques.specs.Cliques.{LeastTo, LeastPut};

use job::Action;
use tables::layout::{NumberTable, SetTable};

// No action takes longer.
const LONGEST: u32 = Action::DURATION as u32;

// The least minutes of an action that adds q, and none where nothing is apart from q.
fn least(sets: &[u64], numbers: &[u32], actions: usize, q: u8) -> u32
    requires { (length sets.now ≡ 384) × (length numbers.now ≡ 1220) × (actions ≤ 64) × (q < 64) }
    ensures { LeastTo sets.now numbers.now actions q result }
{
    if sets[SetTable::APART + q as usize] == 0 {
        return 0;
    }
    let mut best = LONGEST;
    for i in 0..actions {
        if facts::has(sets[i * SetTable::ROW + SetTable::ADDS], q) {
            best = best.min(numbers[i * NumberTable::ROW]);
        }
    }
    best
}

// Puts the least minutes of each fact.
pub fn fill(numbers: &mut [u32], sets: &[u64], actions: usize)
    requires { (length sets.now ≡ 384) × (length numbers.old ≡ 1220) × (actions ≤ 64) }
    ensures { LeastPut sets.now actions 64 numbers.old numbers.new }
{
    for q in 0..facts::BITS {
        numbers[NumberTable::LEAST + q as usize] = least(sets, numbers, actions, q);
    }
}
