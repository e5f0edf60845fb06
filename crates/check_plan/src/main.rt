// Says whether the plan in one file is accepted for the job in another: the plan's end, or by which number
// it is refused.
// Arguments: the job file and the plan file, by name. A file that cannot be read gets a message on standard error.
#![tactic(auto)]

use input::{JOB, PLAN, argument_count, load_named, tell};
use printing::{print_line, print_refusal, unless_left};
use std::env::Env;
use std::io;
use std::rt::Files;

// The end of a plan that is accepted for the job of a file, or why it is not.
fn print_end(rt: &impl Print, file: &[u8], plan: &[u8]) -> io::Result<()> {
    match reader::read(file).and_then(|job| checker::check(job, plan)) {
        Ok(day) => print_line(rt, b"end ", u64::from(day.end)),
        Err(why) => print_refusal(rt, why),
    }
}

// The answer to what the arguments ask; nothing where that cannot be read, which standard error says then.
fn answer(rt: &(impl Env + Files + Print + Eprint + Alloc)) -> Option<io::Result<()>> {
    if argument_count(rt) != 3 {
        tell(rt, "usage: check_plan JOB PLAN");
        return None;
    }
    let mut file = [0u8; JOB];
    let length = load_named(rt, 1, &mut file)?;
    let file = &file[..length];
    let mut plan = [0u8; PLAN];
    let length = load_named(rt, 2, &mut plan)?;
    let plan = &plan[..length];
    Some(print_end(rt, file, plan))
}

fn main(rt: HostRuntime) -> io::Result<()> {
    answer(&rt).map_or(Ok(()), unless_left)
}
