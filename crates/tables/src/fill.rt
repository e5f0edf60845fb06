// Fills the tables of a job: four sets and nine numbers for each action.
ghost use Rattle.std.specs.Prelude.{◌≡◌, ◌+◌, ◌*◌, ◌≤◌, ◌<◌, length};
ghost use Rattle.job.specs.Job.{job_in, Fits};
ghost use Rattle.tables.specs.Filled.{SetsFilled, NumbersFilled, EachFilled, Filled};
ghost use Rattle.tables.specs.Filled.{Clash, ClashSet, SameBefore, ValuesPut, CutTo};

use crate::layout::{NumberTable, SetTable};
use job::{Action, Job, resources};

// A duration as a number of 32 bits. The proof knows the range of a parameter, and not that of an action's field.
fn minutes(duration: u8) -> u32
    ensures { (result ≡ duration) × (result < 256) }
{
    u32::from(duration)
}

// Whether actions i and j clash, which are a and b.
fn clash(i: usize, j: usize, a: Action, b: Action) -> bool
    ensures { Clash i j a b result }
{
    (i == j) | (timeline::hinders(a, b) | timeline::hinders(b, a))
}

// The set of the actions that clash with action i.
fn clash_set(job: Job, i: usize) -> u64
    requires { Fits job.counts × (i < job.counts.actions) }
    ensures { ClashSet (job_in job) i job.counts.actions result }
{
    let counts = job.counts;
    let a = job.actions[i];
    let mut set = 0;
    for j in 0..counts.actions {
        let b = job.actions[j];
        let member = facts::when(clash(i, j, a, b), facts::single(j as u8));
        set = facts::union(set, member);
    }
    set
}

// Puts the sets of action i into the table, and leaves the entries before them.
fn put_sets(sets: &mut [u64], job: Job, i: usize)
    requires { (length sets.old ≡ 384) × Fits job.counts × (i < job.counts.actions) }
    ensures { (length sets.new ≡ 384) × SetsFilled (job_in job) sets.new i
        × SameBefore (i * 4) sets.old sets.new }
{
    let action = job.actions[i];
    let clashing = clash_set(job, i);
    let at = i * SetTable::ROW;
    sets[at] = action.needs;
    sets[at + SetTable::ADDS] = action.adds;
    sets[at + SetTable::DELETES] = action.deletes;
    sets[at + SetTable::CLASHES] = clashing;
}

// Puts four amounts into the table, from place `at` on, and leaves the entries before them.
fn put_amounts(numbers: &mut [u32], at: usize, amounts: [u32; Job::AMOUNTS])
    requires { at + 4 ≤ length numbers.old }
    ensures { ValuesPut numbers.old at 4 amounts numbers.new }
{
    numbers[at..at + Job::AMOUNTS].copy_from_slice(&amounts);
}

// An amount of 64 bits as a number of 32; the greatest stands for what is more, which no job that passes its tests has.
fn cut_one(amount: u64) -> u32
    ensures { amount < 4294967296 → result ≡ amount }
{
    u32::try_from(amount).unwrap_or(u32::MAX)
}

// Four of them.
fn cut(amounts: [u64; Job::AMOUNTS]) -> [u32; Job::AMOUNTS]
    ensures { CutTo amounts result }
{
    amounts.map(cut_one)
}

// Puts the numbers of action i into the table, and leaves the entries before them.
fn put_numbers(numbers: &mut [u32], job: Job, i: usize)
    requires { (length numbers.old ≡ 1220) × Fits job.counts × (i < job.counts.actions) }
    ensures { (length numbers.new ≡ 1220) × NumbersFilled (job_in job) numbers.new i
        × SameBefore (i * 9) numbers.old numbers.new }
{
    let action = job.actions[i];
    let pools = action.pools;
    let stores = resources::charged(job, action);
    let at = i * NumberTable::ROW;
    numbers[at] = minutes(action.duration);
    put_amounts(numbers, at + NumberTable::POOLS, pools);
    put_amounts(numbers, at + NumberTable::STORES, cut(stores));
}

// Puts the sets and numbers of all actions into the tables. What the entries behind them hold is not promised.
pub fn fill(sets: &mut [u64], numbers: &mut [u32], job: Job)
    requires { (length sets.old ≡ 384) × (length numbers.old ≡ 1220) × Fits job.counts }
    ensures { Filled job sets.new numbers.new }
{
    let counts = job.counts;
    for i in 0..counts.actions {
        put_sets(sets, job, i);
        put_numbers(numbers, job, i);
    }
}
