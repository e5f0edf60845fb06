// Pruning: tests of a state of the search. Where one fails the state is given up, since no normal plan has its steps.
#![tactic(auto)]

pub mod tests; // what its steps add, and the earliest times
pub mod carried; // the test of facts that must be carried back
mod pool_minutes; // what is left of a pool before a minute
pub mod missing; // tests of what is missing in a state
