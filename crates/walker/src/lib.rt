// The walk over the listed plans, in the list's order, to the plan at a place.
#![tactic(auto)]

pub mod page; // the plan at a place, for a task
mod walk; // the walk itself
mod visit; // whether a plan is listed
mod spare; // whether each step adds something alone
mod ask; // whether a listed plan can begin with some steps
mod forward; // the facts that hold where the walk stands
