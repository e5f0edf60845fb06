// Joins two plans for a job and prints the joined day, or by which number the question is refused.
// Arguments: the job file and the files of both plans, by name. What cannot be read gets a message on standard error.
#![tactic(auto)]

ghost use Rattle.std.specs.Prelude.{◌≤◌, IfOk};

use input::{JOB, PLAN, argument_count, load_named, tell};
use printing::{print_answer, unless_left};
use std::env::Env;
use std::io;
use std::rt::Files;

// The answer to what the arguments ask; nothing where that cannot be read, which standard error says then.
fn answer(rt: &(impl Env + Files + Print + Eprint + Alloc)) -> Option<io::Result<()>> {
    if argument_count(rt) != 4 {
        tell(rt, "usage: join JOB FIRST SECOND");
        return None;
    }
    let mut file = [0u8; JOB];
    let length = load_named(rt, 1, &mut file)?;
    let file = &file[..length];
    let mut first = [0u8; PLAN];
    let length = load_named(rt, 2, &mut first)?;
    let first = &first[..length];
    let mut second = [0u8; PLAN];
    let length = load_named(rt, 3, &mut second)?;
    let second = &second[..length];
    Some(print_answer(
        rt,
        file,
        |job, out|
            ensures { IfOk result (λ day. day.steps ≤ 32) }
        { joining::join(job, first, second, out) },
    ))
}

fn main(rt: HostRuntime) -> io::Result<()> {
    answer(&rt).map_or(Ok(()), unless_left)
}
