// What a job has of its pools and stores and what a step takes of them, by the words of document 02: handovers, started
// hours and the reserve.
ghost use Rattle.std.specs.Prelude.{◌<◌};

use job::{Action, Form, Job, StoreRule};

// How many minutes a share of each pool stays in use after its step. A job of four entries means 0.
pub fn handovers(job: &Job) -> [u8; Job::POOLS] {
    match job.form {
        Form::Four => [0; Job::POOLS],
        _ => job.handovers,
    }
}

// How often a step of so many minutes takes what its action uses of a store: for each started hour, or once by the old
// rule. Length 60 counts once, 61 twice.
fn uses(rule: StoreRule, minutes: u8) -> u32 {
    match rule {
        StoreRule::PerStep => 1,
        StoreRule::PerHour => u32::from(minutes.saturating_sub(1) / 60 + 1),
    }
}

// How many parts of a hundred of a store may be used up: those that are not kept back, or all by the old rule.
fn percent(rule: StoreRule, reserve: u8) -> u32 {
    match rule {
        StoreRule::PerStep => 100,
        StoreRule::PerHour => 100u32.saturating_sub(u32::from(reserve)),
    }
}

// An amount times a number, divided by another and rounded down. The greatest stands for what is more, of which no store
// has enough.
fn scaled(amount: u32, times: u32, parts: u32) -> u32
    requires { 0 < parts }
{
    let number = u64::from(amount) * u64::from(times) / u64::from(parts);
    u32::try_from(number).unwrap_or(u32::MAX)
}

// The action with what a step of it uses up of each store.
pub fn charged(job: &Job, action: Action) -> Action {
    let times = uses(job.rule, action.duration);
    Action {
        stores: action.stores.map(|amount| scaled(amount, times, 1)),
        ..action
    }
}

// How much of each store may be used up.
pub fn allowed(job: &Job) -> [u32; Job::STORES] {
    let percent = percent(job.rule, job.reserve);
    job.stores.map(|amount| scaled(amount, percent, 100))
}
