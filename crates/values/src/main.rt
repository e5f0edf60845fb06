// Job values that no file holds, handed to the calls without the reader: values that a test of the job refuses, other
// numbers beyond the counts and the form, and whether two values hold the same job. Prints a line for each. What a file
// can hold stands in tests/tables.
#![tactic(auto)]

mod refused; // the cases
mod beyond;
mod forms;
mod pools;
mod ranges;
mod season;
mod trips;
mod calls; // what they are made with
mod crews;
mod filled;
mod jobs;

use std::io;

fn main(rt: HostRuntime) -> io::Result<()> {
    refused::counts(&rt)?;
    refused::head(&rt)?;
    refused::actions(&rt)?;
    refused::order(&rt)?;
    beyond::ignored(&rt)?;
    beyond::same_jobs(&rt)?;
    trips::largest(&rt)?;
    trips::every_count(&rt)?;
    forms::refused(&rt)?;
    forms::ignored(&rt)?;
    forms::trips(&rt)?;
    ranges::refused(&rt)?;
    ranges::ignored(&rt)?;
    ranges::trips(&rt)?;
    ranges::true_days(&rt)?;
    season::refused(&rt)?;
    season::ignored(&rt)?;
    season::trips(&rt)?;
    pools::refused(&rt)?;
    pools::beyond_counts(&rt)?;
    pools::beyond_forms(&rt)?;
    pools::beyond_actions(&rt)?;
    pools::beyond_rules(&rt)
}
