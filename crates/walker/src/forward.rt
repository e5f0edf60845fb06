// The facts that hold where the walk stands, by the steps chosen before.
ghost use Rattle.std.specs.Prelude.{◌≡◌, ◌≤◌, ◌<◌, length};
ghost use Rattle.tables.specs.Tables.{duration_at, Known, Lent};
ghost use Rattle.walker.specs.Walk.{LostOf, Lost, Forward};

use states::{minute, union};
use tables::Steps;
use tables::layout::SetTable;

// The walk has a place for each action in each minute.
pub const ROW: u32 = 64;

// What a step of action i deletes, if it stops at minute t.
fn lost_of(sets: &[u64], numbers: &[u32], i: u8, start: u16, t: u32) -> u64
    requires { (length sets.now ≡ 384) × (length numbers.now ≡ 1220) × (i < 64)
        × (duration_at numbers.now i ≤ 255) }
    ensures { LostOf sets.now numbers.now i start t result }
{
    let stop = minute::stop(numbers, i, start);
    facts::when(
        stop == t,
        sets[i as usize * SetTable::ROW + SetTable::DELETES],
    )
}

// What the steps delete that stop at minute t.
fn lost(sets: &[u64], numbers: &[u32], actions: usize, steps: Steps, t: u32) -> u64
    requires { Lent sets.now numbers.now actions × Known actions steps }
    ensures { Lost sets.now numbers.now actions steps t result }
{
    union::over(steps, |i, start| lost_of(sets, numbers, i, start, t))
}

// The facts that hold at the place's minute, from those that hold at the minute of the place before.
pub fn forward(
    sets: &[u64],
    numbers: &[u32],
    actions: usize,
    steps: Steps,
    held: u64,
    place: u32,
) -> u64
    requires { Lent sets.now numbers.now actions × Known actions steps }
    ensures { Forward sets.now numbers.now actions steps place held result }
{
    if place == 0 || 0 < place % ROW {
        return held;
    }
    let minute = place / ROW;
    let gone = lost(sets, numbers, actions, steps, minute);
    let m = minute::look(sets, numbers, actions, steps, minute);
    facts::union(facts::difference(held, gone), m.added)
}
