// States of the regression search, which actions may stop at a minute, and the moves from one state to the next.
#![tactic(auto)]

pub mod minute; // what the chosen steps mean for a minute
pub mod amounts; // pools and stores
pub mod state; // a state of the search
pub mod union; // the union of a set for each chosen step
mod beside; // which actions may run beside kept steps
pub mod rules; // which actions may stop at a minute
pub mod moves; // from one state to the next
