// "Days to try it on": document 01's cases that are small enough.
use crate::show;
use job::Job;
use made_jobs::{days, parts};
use second::NoMakespan::{NoPlan, TooLarge, UseBeyond};
use std::io;

pub fn starred(rt: &impl Print) -> io::Result<()> {
    output::heading(rt, "Days to try it on: cases 1 to 7, and 13.")?;
    show::shortest(rt, "case 1", Job::zero(), Ok(0))?;
    show::shortest(rt, "case 2, deadline 7", days::case_2(7), Ok(7))?;
    show::shortest(rt, "case 3, deadline 6", days::case_2(6), Err(NoPlan))?;
    show::shortest(rt, "case 4, deadline 4", days::case_4(4, 1), Ok(4))?;
    show::shortest(rt, "case 4, deadline 3", days::case_4(3, 1), Err(NoPlan))?;
    show::shortest(rt, "case 5, pool of 2", days::case_4(4, 2), Ok(2))?;
    show::shortest(rt, "case 6, deadline 3", days::case_6(3), Ok(3))?;
    show::shortest(rt, "case 6, deadline 2", days::case_6(2), Err(NoPlan))?;
    show::shortest(rt, "case 7, store of 4", days::case_7(4), Ok(2))?;
    show::shortest(rt, "case 7, store of 3", days::case_7(3), Err(NoPlan))?;
    show::shortest(rt, "case 13, deadline 9", days::case_13(9), Err(NoPlan))
}

// Each action of case 4 uses 1 of the pool, each of case 7 uses 2 of the store.
pub fn use_beyond(rt: &impl Print) -> io::Result<()> {
    output::heading(rt, "An action uses more of a pool or store than there is.")?;
    show::shortest(rt, "case 4, pool of 0", days::case_4(4, 0), Err(UseBeyond))?;
    show::shortest(rt, "case 7, store of 1", days::case_7(1), Err(UseBeyond))?;
    show::shortest(rt, "case 7, store of 2", days::case_7(2), Err(NoPlan))
}

// So many equal actions of length 1 with these needs. Fact 1, which is wanted, never holds.
fn equal_actions(actions: usize, deadline: u16, needs: u64) -> Job {
    let mut job = parts::empty(2, deadline, 0b00, 0b10);
    for _ in 0..actions {
        job = parts::with_action(job, parts::action(1, needs, 0b01, 0));
    }
    job
}

// The actions that need fact 1 never start; those that need nothing may start at any minute.
pub fn too_large(rt: &impl Print) -> io::Result<()> {
    output::heading(rt, "What is too large for the second planner.")?;
    show::shortest(
        rt,
        "8 actions, deadline 60",
        equal_actions(8, 60, 0b10),
        Err(NoPlan),
    )?;
    show::shortest(rt, "9 actions", equal_actions(9, 60, 0b10), Err(TooLarge))?;
    show::shortest(rt, "deadline 61", equal_actions(8, 61, 0b10), Err(TooLarge))?;
    show::shortest(rt, "512 plans", equal_actions(1, 9, 0), Err(NoPlan))?;
    show::shortest(rt, "many more plans", equal_actions(8, 9, 0), Err(TooLarge))
}
