// The lines of the output: the name of a case, a colon, and what the second planner answered. Where that is not what
// the case expects, the line says so.
use job::Job;
use second::NoMakespan;
use std::{fmt, io};

// The least end, or why it is not told.
pub type Makespan = Result<u32, NoMakespan>;

#[derive(Clone, Copy)]
struct Told(Makespan);

impl fmt::Display for Told {
    fn fmt<W: fmt::Write>(&self, f: &mut fmt::Formatter<W>) -> fmt::Result {
        match self.0 {
            Ok(end) => write!(f, "ends {end}"),
            Err(why) => write!(f, "{why}"),
        }
    }
}

pub fn answer(rt: &impl Print, case: &str, found: Makespan, expected: Makespan) -> io::Result<()> {
    output::name(rt, case)?;
    if found == expected {
        println!(rt; "{}", Told(found))
    } else {
        println!(rt; "{}, expected {}", Told(found), Told(expected))
    }
}

pub fn shortest(rt: &impl Print, case: &str, job: Job, expected: Makespan) -> io::Result<()> {
    answer(rt, case, second::shortest(job), expected)
}
