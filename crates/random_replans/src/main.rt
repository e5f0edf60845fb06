// The replanner against the plain second planner on random small days already begun: a line for each seed at which they
// differ, and totals.
#![tactic(auto)]

mod compare; // both planners on one begun day
mod draw; // a begun day and a new goal
mod random; // both on many begun days

use std::io;

fn main(rt: HostRuntime) -> io::Result<()> {
    random::replans(&rt)
}
