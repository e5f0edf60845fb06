// Plans a begun day anew: keeps the steps of its plan that start before a minute, and prints a shortest plan with them
// for a goal set, or by which number the question is refused.
// Arguments: the job file and the file of the current plan, by name, the minute and the goal set, as decimal numbers.
// What cannot be read, or is no such number, gets a message on standard error.
#![tactic(auto)]

ghost use Rattle.std.specs.Prelude.{◌≤◌, IfOk};

use input::{JOB, PLAN, argument_count, load_named, number_in, tell};
use printing::{print_answer, unless_left};
use std::env::Env;
use std::io;
use std::rt::Files;

// The largest minute that can be asked for.
const LAST_MINUTE: u64 = u32::MAX as u64;

// The answer to what the arguments ask; nothing where that cannot be read, which standard error says then.
fn answer(rt: &(impl Env + Files + Print + Eprint + Alloc)) -> Option<io::Result<()>> {
    if argument_count(rt) != 5 {
        tell(rt, "usage: replan JOB PLAN MINUTE GOAL");
        return None;
    }
    let message = "replan: MINUTE is not a decimal number of 32 bits";
    let minute = number_in(rt, 3, LAST_MINUTE, message)? as u32;
    let message = "replan: GOAL is not a decimal number of 64 bits";
    let goal = number_in(rt, 4, u64::MAX, message)?;
    let mut file = [0u8; JOB];
    let length = load_named(rt, 1, &mut file)?;
    let file = &file[..length];
    let mut current = [0u8; PLAN];
    let length = load_named(rt, 2, &mut current)?;
    let current = &current[..length];
    Some(print_answer(
        rt,
        file,
        |job, out|
            ensures { IfOk result (λ day. day.steps ≤ 32) }
        { replanner::replan(job, current, minute, goal, out) },
    ))
}

fn main(rt: HostRuntime) -> io::Result<()> {
    answer(&rt).map_or(Ok(()), unless_left)
}
