// Jobs made by hand for the test programs. A set of facts is written with fact 0 as its last digit: 0b011 is {0, 1}.
#![tactic(auto)]

pub mod parts; // a job built up part by part
pub mod days; // the jobs of document 01
