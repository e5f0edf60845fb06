// The union of a set of facts for each chosen step.
ghost use Rattle.std.specs.Prelude.{ℕ, ◌≤◌, ◌<◌, get_or};
ghost use Rattle.states.specs.Unions.{UnionOver};

use tables::Steps;

// What the chosen steps say together, where one of an action and a start says so much.
pub fn over<F: Fn(u8, u16) -> u64>(steps: Steps, set_of: F) -> u64
    requires few { steps.count ≤ 32 }
    requires asked { (k : ℕ) → k < steps.count → F.pre set_of (get_or steps.numbers k 0) (get_or steps.starts k 0) }
    ensures { UnionOver steps (λ i start set. F.post set_of i start set) result }
{
    let mut set: u64 = 0;
    for k in 0..steps.count {
        set = facts::union(set_of(steps.numbers[k], steps.starts[k]), set);
    }
    set
}
