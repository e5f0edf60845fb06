// The walk over all plans that stop by a horizon, in the order of a list: a plan that begins another comes first, and an
// earlier start, then a smaller action, before others.
ghost use Rattle.std.specs.Prelude.{◌≤◌};

use crate::day::State;
use crate::steps;
use crate::steps::{Step, Steps, Task};

// Some steps, their end, and the state that they leave in the minute that is being decided.
#[derive(Clone, Copy)]
struct Chosen<'d> {
    state: State<'d>,
    steps: Steps,
    end: u32,
}

// The list that is written: how many plans so far, and how many decisions are left.
#[derive(Drop)]
pub struct List<'o> {
    pub out: &'o mut [u8],
    pub plans: u32,
    pub decisions: u32,
}

impl<'d> Chosen<'d> {
    // Whether the steps are a listed plan, `left` minutes before the horizon: they end there, the goal holds then, and no
    // single step can be dropped with the rest still accepted.
    fn is_listed(&self, task: &Task, left: u32) -> bool {
        self.end == task.horizon
            && self.state.minutes_later(left).goal_holds()
            && !steps::any_dropped(task, &self.steps)
    }
}

// Writes the steps behind the plans found so far, where they are a listed plan.
fn visit(task: &Task, chosen: &Chosen, left: u32, list: &mut List) {
    if chosen.is_listed(task, left) {
        steps::write(list.out, list.plans, &chosen.steps);
        list.plans = list.plans.wrapping_add(1);
    }
}

// Writes the listed plans that go on from these steps. Of the actions, the last `undecided` may still start in this
// minute, `left` minutes before the horizon.
fn walk(task: &Task, mut chosen: Chosen, left: u32, undecided: usize, list: &mut List)
    requires { undecided ≤ task.now.before.day.now.counts.actions }
{
    let actions = task.before.day.counts.actions;
    if undecided == 0 {
        if 0 < left {
            chosen.state = chosen.state.tick();
            walk(task, chosen, left - 1, actions, list);
        }
        return;
    }
    if list.decisions == 0 {
        return;
    }
    list.decisions -= 1;
    let number = actions - undecided;
    if chosen.state.may_start(number, left) {
        let now = task.horizon.saturating_sub(left);
        let length = u32::from(task.before.day.actions[number].duration);
        let longer = Chosen {
            state: chosen.state.started(number),
            steps: chosen.steps.with(Step {
                number: number as u8,
                start: (now % 65_536) as u16,
            }),
            end: chosen.end.max(now.wrapping_add(length)),
        };
        visit(task, &longer, left, list);
        walk(task, longer, left, undecided - 1, list);
    }
    walk(task, chosen, left, undecided - 1, list);
}

// Writes every listed plan, with the list's decisions whether to start an action.
pub fn every(task: &Task, list: &mut List) {
    let chosen = Chosen {
        state: task.before,
        steps: Steps::none(),
        end: 0,
    };
    visit(task, &chosen, task.horizon, list);
    walk(
        task,
        chosen,
        task.horizon,
        task.before.day.counts.actions,
        list,
    );
}
