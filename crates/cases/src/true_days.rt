// Days that have run, by the true length of each step.
use crate::calls::print_run;
use crate::lending::{leading_number, rest};
use job::Job;
use lent::front;
use std::io;

// The bytes of the number of lengths, which stands before them; the plan stands behind them.
const COUNT: usize = 1;

pub fn print(rt: &impl Print, job: Job, given: &[u8]) -> io::Result<()> {
    let count = leading_number(given, COUNT) as usize;
    let behind = rest(given, COUNT);
    let lengths = front(behind, count);
    let plan = rest(behind, count);
    print_run(rt, job, true_day::true_day(job, plan, lengths))
}
