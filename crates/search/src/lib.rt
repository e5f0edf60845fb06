// The regression search: from the horizon back, from event minute to event minute.
#![tactic(auto)]

pub mod regress; // the search for one horizon
mod bounds; // a minute before which no plan ends
pub mod horizons; // the least horizon with a plan
