// Days planned in two halves, by the call and by the plain second planner, on random small jobs and halfway sets: a line
// for each seed at which they differ, and totals.
#![tactic(auto)]

mod draw; // a job and a halfway set
mod compare; // both on one of them
mod random; // both on many

use std::io;

fn main(rt: HostRuntime) -> io::Result<()> {
    random::halves(&rt)
}
