// Pools the jobs of two files to one: writes the file of the pooled job to standard output, or prints by which number
// they are refused.
// Arguments: the two job files, by name. A file that cannot be read gets a message on standard error.
#![tactic(auto)]

ghost use Rattle.std.specs.Prelude.{◌≤◌, IfOk, length};

use input::{JOB, argument_count, load_named, tell};
use job::refusal::Refusal;
use jobfile::Layout;
use printing::{print_refusal, unless_left};
use std::env::Env;
use std::io;
use std::rt::Files;

// Writes the file of the jobs of two files, pooled, and returns its length; or the first refusal.
fn write_pooled(first: &[u8], second: &[u8], out: &mut [u8]) -> Result<usize, Refusal>
    ensures { IfOk result (λ n. n ≤ length out.new) }
{
    let mine = reader::read(first)?;
    let other = reader::read(second)?;
    let pooled = pooling::pool(mine, other)?;
    writer::write(pooled, out)
}

// The answer for two files.
fn print_pooled(rt: &impl Print, first: &[u8], second: &[u8]) -> io::Result<()> {
    let mut file = [0u8; Layout::FILE];
    match write_pooled(first, second, &mut file) {
        Ok(length) => rt.write_all(&file[..length]),
        Err(why) => print_refusal(rt, why),
    }
}

// The answer to what the arguments ask; nothing where that cannot be read, which standard error says then.
fn answer(rt: &(impl Env + Files + Print + Eprint + Alloc)) -> Option<io::Result<()>> {
    if argument_count(rt) != 3 {
        tell(rt, "usage: pool FIRST SECOND");
        return None;
    }
    let mut first = [0u8; JOB];
    let length = load_named(rt, 1, &mut first)?;
    let first = &first[..length];
    let mut second = [0u8; JOB];
    let length = load_named(rt, 2, &mut second)?;
    let second = &second[..length];
    Some(print_pooled(rt, first, second))
}

fn main(rt: HostRuntime) -> io::Result<()> {
    answer(&rt).map_or(Ok(()), unless_left)
}
