// Says of a job file on standard input whether the reader accepts it, or by which number it is refused.
#![tactic(auto)]

use input::{JOB, load, tell};
use printing::{print_refusal, unless_left};
use std::io;

// The answer to a file, on a line of its own.
fn print_verdict(rt: &impl Print, file: &[u8]) -> io::Result<()> {
    match reader::read(file) {
        Ok(_) => println!(rt; "accepted"),
        Err(why) => print_refusal(rt, why),
    }
}

fn main(rt: HostRuntime) -> io::Result<()> {
    let mut file = [0u8; JOB];
    let Ok(length) = load(&mut rt.stdin(), &mut file) else {
        tell(&rt, "accept: standard input cannot be read");
        return Ok(());
    };
    unless_left(print_verdict(&rt, &file[..length]))
}
