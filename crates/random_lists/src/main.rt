// The lists of all the shortest days by the lister and by the plain second planner, on random small jobs, plan by plan: a
// line for each seed at which they differ, and totals.
#![tactic(auto)]

mod compare; // both lists of one job
mod random; // both on many jobs

use std::io;

fn main(rt: HostRuntime) -> io::Result<()> {
    random::lists(&rt)
}
