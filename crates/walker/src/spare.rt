// Whether each step adds something alone. A step that does not is spare in every plan that has these steps.
ghost use Rattle.std.specs.Prelude.{◌≡◌, ◌<◌, ◌≤◌, length};
ghost use Rattle.tables.specs.Tables.{Lent, Known, duration_at};
ghost use Rattle.walker.specs.Spare.{AddedWhile, Alone, NoneSpare};

use states::minute;
use tables::Steps;
use tables::layout::SetTable;

// What a step of action a adds, if a is not b and the step stops while one of action b runs, or together with it.
fn added_while(sets: &[u64], numbers: &[u32], a: u8, start: u16, b: u8, from: u16, stop: u32) -> u64
    requires { (length sets.now ≡ 384) × (length numbers.now ≡ 1220) × (a < 64)
        × (duration_at numbers.now a ≤ 255) }
    ensures { AddedWhile sets.now numbers.now a start b from stop result }
{
    if a == b {
        return 0;
    }
    let own = minute::stop(numbers, a, start);
    let while_running = (u32::from(from) < own) & (own <= stop);
    facts::when(
        while_running,
        sets[a as usize * SetTable::ROW + SetTable::ADDS],
    )
}

// What a step of action b adds that no step of another action adds while it runs.
fn alone(
    sets: &[u64],
    numbers: &[u32],
    actions: usize,
    steps: Steps,
    b: u8,
    from: u16,
    stop: u32,
) -> u64
    requires { Lent sets.now numbers.now actions × Known actions steps × (b < 64) }
    ensures { Alone sets.now numbers.now steps steps.count b from stop result }
{
    let mut set = sets[b as usize * SetTable::ROW + SetTable::ADDS];
    for k in 0..steps.count {
        let other = added_while(
            sets,
            numbers,
            steps.numbers[k],
            steps.starts[k],
            b,
            from,
            stop,
        );
        set = facts::difference(set, other);
    }
    set
}

// Whether each step adds something alone that can be of use by the horizon.
pub fn none_spare(
    sets: &[u64],
    numbers: &[u32],
    tails: &[u32],
    actions: usize,
    horizon: u16,
    steps: Steps,
) -> bool
    requires { Lent sets.now numbers.now actions × Known actions steps × (length tails.now ≡ 64) }
    ensures { NoneSpare sets.now numbers.now tails.now horizon steps result }
{
    for i in 0..steps.count {
        let number = steps.numbers[i];
        let start = steps.starts[i];
        let stop = minute::stop(numbers, number, start);
        let set = alone(sets, numbers, actions, steps, number, start, stop);
        if u32::from(horizon) < stop + tails::least(tails, set) {
            return false;
        }
    }
    true
}
