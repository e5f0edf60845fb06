// What an action takes of pools and stores: how long shares of pools stay in use, how much of the stores is used up. Only
// here are hours counted and reserves kept back.
ghost use Rattle.std.specs.Prelude.{◌≡◌, ℕ, ◌-◌, ◌≤◌, get_or};
ghost use Rattle.job.specs.Job.{job_in};
ghost use Rattle.job.specs.Resources.{HandoversOf, hours, charged_by, SmallCharge, allowed_by, charged_in};
ghost use Rattle.job.specs.Resources.{allowed_in};

use crate::{Action, Form, Job, StoreRule};

// Minutes of an hour; a begun one counts.
const HOUR: u64 = 60;

const BEGUN: u64 = HOUR - 1;

// A reserve is in parts of a hundred.
const WHOLE: u64 = 100;

// How many minutes a share of each pool stays in use after its step.
pub fn handovers(job: Job) -> [u8; Job::POOLS]
    ensures { HandoversOf (job_in job) result }
{
    match job.form {
        Form::Four => [0u8; Job::POOLS],
        Form::Five | Form::Six => job.handovers,
    }
}

// The started hours.
fn hours(minutes: u8) -> u64
    ensures { (result ≡ hours minutes) × (result ≤ 5) }
{
    (u64::from(minutes) + BEGUN) / HOUR
}

// What a step of so many minutes uses up of a store, by its amount.
fn charge(rule: StoreRule, minutes: u8, amount: u32) -> u64
    ensures { (result ≡ charged_by rule minutes amount) × SmallCharge amount result }
{
    match rule {
        StoreRule::PerStep => u64::from(amount),
        StoreRule::PerHour => u64::from(amount) * hours(minutes),
    }
}

// What a step of the action uses up of each store. An amount for five hours may need more than 32 bits.
pub fn charged(job: Job, action: Action) -> [u64; Job::STORES]
    ensures { (result ≡ charged_in job action)
        × ((store : ℕ) → SmallCharge (get_or action.stores store 0) (get_or result store 0)) }
{
    let rule = job.rule;
    let minutes = action.duration;
    let first = charge(rule, minutes, action.stores[0]);
    let second = charge(rule, minutes, action.stores[1]);
    let third = charge(rule, minutes, action.stores[2]);
    let fourth = charge(rule, minutes, action.stores[3]);
    [first, second, third, fourth]
}

// The parts of a hundred that are not kept back.
fn unreserved(reserve: u8) -> u64
    ensures { (result ≡ 100 - reserve) × (result ≤ 100) }
{
    WHOLE.saturating_sub(u64::from(reserve))
}

// How much of so much may be used up.
fn allowance(rule: StoreRule, reserve: u8, available: u32) -> u32
    ensures { result ≡ allowed_by rule reserve available }
{
    match rule {
        StoreRule::PerStep => available,
        StoreRule::PerHour => (u64::from(available) * unreserved(reserve) / WHOLE) as u32,
    }
}

// How much of each store may be used up.
pub fn allowed(job: Job) -> [u32; Job::STORES]
    ensures { result ≡ allowed_in job }
{
    let rule = job.rule;
    let reserve = rule.reserve(job.reserve);
    let first = allowance(rule, reserve, job.stores[0]);
    let second = allowance(rule, reserve, job.stores[1]);
    let third = allowance(rule, reserve, job.stores[2]);
    let fourth = allowance(rule, reserve, job.stores[3]);
    [first, second, third, fourth]
}
