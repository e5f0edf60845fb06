// The steps of a plan that start before a minute: they are kept.
ghost use Rattle.std.specs.Prelude.{◌≡◌, ℕ, ◌≤◌, ◌<◌};
ghost use Rattle.timeline.specs.Value.{step_at};
ghost use Rattle.tables.specs.Tables.{pushed};
ghost use Rattle.replanner.specs.Kept.{Keeps};

use tables::Steps;
use timeline::{Plan, Step};

// The kept steps with one more, where it starts before the minute.
fn with_step(kept: Steps, step: Step, minute: u32) -> Steps
    requires { (kept.count < 32) × (step.start < 65536) }
    ensures { (step.start < minute → result ≡ pushed kept step.number step.start)
        × (minute ≤ step.start → result ≡ kept) }
{
    if minute <= step.start {
        return kept;
    }
    kept.push(step.number, step.start as u16)
}

// The steps that start before the minute, in the plan's order.
pub fn kept_steps(plan: Plan, minute: u32) -> Steps
    requires { (plan.length ≤ 32) × ((k : ℕ) → k < plan.length → (step_at plan k).start < 65536) }
    ensures { Keeps plan plan.length minute result }
{
    let mut kept = Steps::none();
    for step in &plan.steps[..plan.length] {
        kept = with_step(kept, *step, minute);
    }
    kept
}
