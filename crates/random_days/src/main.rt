// The planner against the plain second planner on random small jobs: a line for each seed at which they differ, and
// totals.
#![tactic(auto)]

mod random; // both on many jobs

use std::io;

fn main(rt: HostRuntime) -> io::Result<()> {
    random::days(&rt)
}
