// Prints a day planned in two halves, the first for a halfway set, or by which number the question is refused.
// Arguments: the job file, by name, and the halfway set, as a decimal number. What cannot be read, or is no such number,
// gets a message on standard error.
#![tactic(auto)]

ghost use Rattle.std.specs.Prelude.{◌≤◌, IfOk};

use input::{JOB, argument_count, load_named, number_in, tell};
use printing::{print_answer, unless_left};
use std::env::Env;
use std::io;
use std::rt::Files;

// The answer to what the arguments ask; nothing where that cannot be read, which standard error says then.
fn answer(rt: &(impl Env + Files + Print + Eprint + Alloc)) -> Option<io::Result<()>> {
    if argument_count(rt) != 3 {
        tell(rt, "usage: halves JOB HALFWAY");
        return None;
    }
    let message = "halves: HALFWAY is not a decimal number of 64 bits";
    let halfway = number_in(rt, 2, u64::MAX, message)?;
    let mut file = [0u8; JOB];
    let length = load_named(rt, 1, &mut file)?;
    let file = &file[..length];
    Some(print_answer(
        rt,
        file,
        |job, out|
            ensures { IfOk result (λ day. day.steps ≤ 32) }
        { halving::halves(job, halfway, out) },
    ))
}

fn main(rt: HostRuntime) -> io::Result<()> {
    answer(&rt).map_or(Ok(()), unless_left)
}
