// Pooled days by the planner and by the plain second planner, on random pairs of very small jobs and in both orders: a
// line for each seed at which they differ, and totals.
#![tactic(auto)]

mod compare; // both planners on a pooled job, in both orders
mod draw; // a pair of jobs
mod random; // both on many pairs

use std::io;

fn main(rt: HostRuntime) -> io::Result<()> {
    random::pools(&rt)
}
