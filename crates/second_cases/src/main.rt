// The second planner on the small days of document 01, on begun days and on random small jobs: a line for each case, and
// totals.
#![tactic(auto)]

mod days; // the days of document 01
mod random;
mod replans; // begun days
mod show; // the lines of the output

use std::io;

fn main(rt: HostRuntime) -> io::Result<()> {
    days::starred(&rt)?;
    days::use_beyond(&rt)?;
    days::too_large(&rt)?;
    replans::days(&rt)?;
    random::jobs(&rt)
}
