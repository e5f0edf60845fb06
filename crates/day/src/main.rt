// Reads a job file from standard input and prints a shortest plan, or by which number the job is refused.
#![tactic(auto)]

ghost use Rattle.std.specs.Prelude.{◌≤◌, IfOk};

use input::{JOB, load, tell};
use printing::{print_answer, unless_left};
use std::io;

fn main(rt: HostRuntime) -> io::Result<()> {
    let mut file = [0u8; JOB];
    let Ok(length) = load(&mut rt.stdin(), &mut file) else {
        tell(&rt, "day: standard input cannot be read");
        return Ok(());
    };
    unless_left(print_answer(
        &rt,
        &file[..length],
        |job, out|
            ensures { IfOk result (λ day. day.steps ≤ 32) }
        { planner::plan(job, out) },
    ))
}
