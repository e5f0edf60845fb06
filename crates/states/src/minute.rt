// What the chosen steps mean for one minute.
ghost use Rattle.std.specs.Prelude.{◌≡◌, List, [], ◌∷◌, ℕ, ◌+◌, ◌*◌, ◌≤◌, ◌<◌, length};
ghost use Rattle.timeline.specs.Step.{Step};
ghost use Rattle.tables.specs.Tables.{duration_at, Known, Lent};
ghost use Rattle.states.specs.Minutes.{MinuteOf, Is, JoinsStep, LooksAt};

use tables::Steps;
use tables::layout::{NumberTable, SetTable};

// Sets of a minute: by their numbers the actions that run in the minute before and those that start now, and facts.
#[derive(Clone, Copy)]
pub struct Minute {
    pub running: u64,
    pub held: u64, // what the steps that run in the minute before need
    pub starting: u64,
    pub needed: u64, // what the steps that start now need
    pub across: u64, // what the steps that run now need
    pub added: u64, // what the steps that stop now add
}

// A minute has 16 bits: it is one of so many numbers.
pub const MINUTES: u32 = 65_536;

// A minute of 16 bits as a number of 32.
pub fn wide(minute: u16) -> u32
    ensures { (result ≡ minute) × (result < 65536) }
{
    u32::from(minute)
}

// The stop of action i that starts then.
pub fn stop(numbers: &[u32], i: u8, start: u16) -> u32
    requires { (i * 9 < length numbers.now) × (duration_at numbers.now i ≤ 255) }
    ensures { (result ≡ start + duration_at numbers.now i) × (result ≤ 65790) }
{
    wide(start) + numbers[i as usize * NumberTable::ROW]
}

// The sets of the minute with one step more.
fn with_step(m: Minute, t: u32, number: u8, start: u32, stop: u32, needs: u64, adds: u64) -> Minute
    requires { number < 64 }
    ensures { (x : Step) → Is x number start stop needs adds → (L : List Step) → MinuteOf t L m
        → MinuteOf t (x ∷ L) result }
{
    let into = (start < t) & (t <= stop);
    let starts = start == t;
    let across = (start <= t) & (t < stop);
    let one = facts::single(number);
    Minute {
        running: facts::union(facts::when(into, one), m.running),
        held: facts::union(facts::when(into, needs), m.held),
        starting: facts::union(facts::when(starts, one), m.starting),
        needed: facts::union(facts::when(starts, needs), m.needed),
        across: facts::union(facts::when(across, needs), m.across),
        added: facts::union(facts::when(stop == t, adds), m.added),
    }
}

// The sets of the minute with one more step of an action.
pub fn joined(sets: &[u64], numbers: &[u32], m: Minute, t: u32, i: u8, start: u16) -> Minute
    requires { (length sets.now ≡ 384) × (length numbers.now ≡ 1220) × (i < 64)
        × (duration_at numbers.now i ≤ 255) }
    ensures { JoinsStep sets.now numbers.now t i start m result }
{
    let at = i as usize * SetTable::ROW;
    with_step(
        m,
        t,
        i,
        wide(start),
        stop(numbers, i, start),
        sets[at],
        sets[at + SetTable::ADDS],
    )
}

// No steps.
fn empty() -> Minute
    ensures { (t : ℕ) → MinuteOf t [] result }
{
    Minute {
        running: 0,
        held: 0,
        starting: 0,
        needed: 0,
        across: 0,
        added: 0,
    }
}

// The sets of the minute for the chosen steps.
pub fn look(sets: &[u64], numbers: &[u32], actions: usize, steps: Steps, t: u32) -> Minute
    requires { Lent sets.now numbers.now actions × Known actions steps }
    ensures { LooksAt sets.now numbers.now actions steps t result }
{
    let mut m = empty();
    for k in 0..steps.count {
        m = joined(sets, numbers, m, t, steps.numbers[k], steps.starts[k]);
    }
    m
}
