// Three plans of one job joined from the left and from the right, on random plans: a line for each seed at which the two
// ways differ, and totals.
#![tactic(auto)]

mod draw; // a job, and plans that pass 12 to 15 of it
mod compare; // both ways of joining three plans
mod random; // many triples

use std::io;

fn main(rt: HostRuntime) -> io::Result<()> {
    random::joins(&rt)
}
